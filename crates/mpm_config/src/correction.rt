//! The ten corrections of numbers that do not go together.
ghost use Rattle.std.specs.Prelude.{◌≡◌, Some, None, nat_lt, if◌then◌else◌, ◌++◌, ◌<◌, ◌≤◌, [], length, slice_get, IfOk, OnOk};
ghost use Rattle.mpm_config.specs.Correction.{becomes, after_corrections, corrected_by, corrected_name_of, after_correction, notices, notices_by, notice_text, notice_of, place_of, quantity_of};
ghost use Rattle.mpm_config.specs.CorrectionInside.{AllReady, IsReadyToCorrect};
ghost use Rattle.mpm_config.specs.Numbers.{IsInRange};
ghost use Rattle.mpm_config.specs.Warning.{warning_bytes};
ghost use Rattle.mpm_config.specs.Directive.{quantity_name};
ghost use Rattle.std.specs.Option.{option_map_or};

use crate::directive::Quantity;
use crate::numbers::Numbers;
use crate::warning::{Warning, Warnings};
use mpm_base::{NoMemory, Octets};
use std::alloc::Global;

/// A correction, named for what it finds.
#[derive(Clone, Copy, Debug, PartialEq, Eq)]
pub enum Correction {
    NoThreads,
    ThreadsAboveLimit,
    WorkersBelowThreads,
    WorkersNoMultiple,
    WorkersAboveProduct,
    NoServers,
    ServersAboveQuotient,
    NoSpare,
    SpareBelowSum,
    RequestsAboveLimit,
}

/// The order in which they are made.
pub const ORDER: [Correction; 10] = [
    Correction::NoThreads,
    Correction::ThreadsAboveLimit,
    Correction::WorkersBelowThreads,
    Correction::WorkersNoMultiple,
    Correction::WorkersAboveProduct,
    Correction::NoServers,
    Correction::ServersAboveQuotient,
    Correction::NoSpare,
    Correction::SpareBelowSum,
    Correction::RequestsAboveLimit,
];

/// The greatest number of responses of one connection.
pub const MOST_RESPONSES: u32 = 65_535;

/// The bound, where the number is below it.
fn raised(number: u32, bound: u32) -> Option<u32>
    ensures { result ≡ (if nat_lt number bound then Some bound else None) }
{
    if number < bound { Some(bound) } else { None }
}

/// The bound, where the number is above it.
fn lowered(number: u32, bound: u32) -> Option<u32>
    ensures { result ≡ (if nat_lt bound number then Some bound else None) }
{
    if bound < number { Some(bound) } else { None }
}

impl Correction {
    /// Its number, from 1.
    pub fn place(self) -> u8
        ensures { result ≡ place_of self }
    {
        self as u8 + 1
    }

    /// The number that it corrects.
    pub fn quantity(self) -> Quantity
        ensures { result ≡ quantity_of self }
    {
        match self {
            Correction::NoThreads | Correction::ThreadsAboveLimit => Quantity::ThreadsPerChild,
            Correction::WorkersBelowThreads
            | Correction::WorkersNoMultiple
            | Correction::WorkersAboveProduct => Quantity::MaxRequestWorkers,
            Correction::NoServers | Correction::ServersAboveQuotient => Quantity::StartServers,
            Correction::NoSpare => Quantity::MinSpareThreads,
            Correction::SpareBelowSum => Quantity::MaxSpareThreads,
            Correction::RequestsAboveLimit => Quantity::MaxKeepAliveRequests,
        }
    }

    /// What that number becomes, where the correction applies.
    pub fn becomes(self, n: &Numbers) -> Option<u32>
        requires { IsReadyToCorrect self n.now }
        ensures { result ≡ becomes self n.now }
    {
        match self {
            Correction::NoThreads => raised(n.threads, 1),
            Correction::ThreadsAboveLimit => lowered(n.threads, n.thread_limit),
            Correction::WorkersBelowThreads => raised(n.max_workers, n.threads),
            Correction::WorkersNoMultiple => lowered(
                n.max_workers,
                n.max_workers / n.threads * n.threads,
            ),
            Correction::WorkersAboveProduct => lowered(n.max_workers, n.server_limit * n.threads),
            Correction::NoServers => raised(n.start_servers, 1),
            Correction::ServersAboveQuotient => lowered(n.start_servers, n.max_workers / n.threads),
            Correction::NoSpare => raised(n.min_spare, 1),
            Correction::SpareBelowSum => raised(n.max_spare, n.min_spare + n.threads),
            Correction::RequestsAboveLimit => lowered(n.most, MOST_RESPONSES),
        }
    }

    /// Makes the correction where it applies, and then tells it.
    pub fn fix(self, numbers: &mut Numbers) -> Option<Warning>
        requires { IsReadyToCorrect self numbers.old }
        ensures numbers { numbers.new ≡ after_correction self numbers.old }
        ensures notice { result ≡ notice_of self numbers.old }
    {
        let quantity = self.quantity();
        let was = numbers.get(quantity);
        let now = self.becomes(numbers)?;
        numbers.set(quantity, now);
        Some(Warning {
            correction: self.place(),
            was,
            now: u64::from(now),
        })
    }
}

/// Makes some corrections, one after the other.
fn correct_by(numbers: &mut Numbers, corrections: &[Correction])
    requires { AllReady corrections.now numbers.old }
    ensures { numbers.new ≡ corrected_by corrections.now numbers.old }
{
    for correction in corrections {
        let _ = correction.fix(numbers);
    }
}

/// Makes some corrections, one after the other, and puts down what they tell.
fn tell_by(
    numbers: &mut Numbers,
    corrections: &[Correction],
    warnings: &mut Warnings,
) -> Result<(), NoMemory>
    requires { AllReady corrections.now numbers.old }
    ensures { OnOk result (warnings.new ≡ warnings.old ++ notices_by corrections.now numbers.old) }
{
    for correction in corrections {
        if let Some(warning) = correction.fix(numbers) {
            warnings.push(warning)?;
        }
    }
    Ok(())
}

/// The numbers after the ten corrections.
pub fn correct(written: &Numbers) -> Numbers
    requires { IsInRange written.now }
    ensures { result ≡ after_corrections written.now }
{
    let mut numbers = *written;
    correct_by(&mut numbers, &ORDER);
    numbers
}

/// What the ten corrections tell.
pub fn warnings_of(alloc: Global, written: &Numbers) -> Result<Warnings, NoMemory>
    requires { IsInRange written.now }
    ensures { IfOk result (λ w. w ≡ notices written.now) }
{
    let mut numbers = *written;
    let mut warnings = Warnings::make(alloc);
    tell_by(&mut numbers, &ORDER, &mut warnings)?;
    Ok(warnings)
}

/// The name of the number that the correction at a place corrects.
fn name_at(corrections: &[Correction], place: usize) -> &'static str
    requires { place < length corrections.now }
    ensures { result.now
        ≡ option_map_or (λ c. quantity_name (quantity_of c)) (slice_get corrections.now place) [] }
{
    corrections[place].quantity().name()
}

/// The name of the number that a correction of that number corrects.
fn corrected_name(correction: u8) -> &'static str
    requires from { 1 ≤ correction }
    requires to { correction ≤ 10 }
    ensures { result.now ≡ corrected_name_of correction }
{
    name_at(&ORDER, usize::from(correction) - 1)
}

/// Adds the line of a warning.
fn add_warning(text: &mut Octets, name: &str, was: u64, now: u64) -> Result<(), NoMemory>
    ensures { OnOk result (text.new ≡ text.old ++ warning_bytes name.now was now) }
{
    text.add(b"warning: ")?;
    text.add(name.as_bytes())?;
    text.add(b" ")?;
    text.add_number(was)?;
    text.add(b" changed to ")?;
    text.add_number(now)?;
    text.add(b"\n")
}

/// The line that tells an operator of a correction: `warning: NAME WAS changed to NOW` and a line feed.
pub fn warning_text(alloc: Global, w: &Warning) -> Result<Octets, NoMemory>
    ensures { IfOk result (λ text. text ≡ notice_text w.entry.now) }
{
    let name = corrected_name(w.correction);
    let mut text = Octets::make(alloc);
    add_warning(&mut text, name, w.was, w.now)?;
    Ok(text)
}
