//! The words of the table.
ghost use Rattle.table_rule.specs.Tie.{AreFirstWords};

/// What stands on the idle word of a child without credit.
pub const BIAS: u64 = 4_294_967_296;

/// The words of a new table.
pub fn first_words() -> [u64; 34]
    ensures { AreFirstWords result }
{
    let mut words = [BIAS; 34];
    words[0] = 0;
    words[1] = 1;
    words
}
