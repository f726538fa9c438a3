//! Values that are listed under their names.
ghost use Rattle.std.specs.Prelude.{◌<◌, length};

/// The first value that is listed under the name.
pub fn listed_as<T: Copy>(list: &[(&'static str, T)], name: &str) -> Option<T> {
    for (own, value) in list {
        if *own == name {
            return Some(*value);
        }
    }
    None
}

/// The value at the place of that number, where the list is counted over and over.
pub fn listed_at<T: Copy>(list: &[(&'static str, T)], number: u64) -> T
    requires { 0 < length list.now }
{
    list[(number % list.len() as u64) as usize].1
}
