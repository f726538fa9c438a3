//! What the rule of a place is worth.
ghost use Rattle.recycle_perch.specs.Carriers.{CarriersRestOrWereTaken};

/// Where the rule of a place holds, each carrier that was laid down there rests, or was taken by one step, which the mark knows that it was
/// made with. So of what all marks of all places know the number of carriers that rest follows, and of those that are out.
pub fn carriers_rest_or_were_taken()
    ensures { CarriersRestOrWereTaken }
{}
