//! The laws of the requests that the bytes of a connection spell.
ghost use Rattle.std.specs.Prelude.{◌≡◌, ℕ, List, ◌++◌, Option, Some};
ghost use Rattle.http_read.specs.declared.request.Limits.{Limits};
ghost use Rattle.http_read.specs.RequestParts.{RequestParts};
ghost use Rattle.http_read.specs.Requests.{ReadRefusal, SpellsRequests, AreItems};

use crate::body::{keeps_form, one_form};
use crate::head::{keeps_answer, one_answer};

/// All bytes spell a list of requests, with a refusal or none behind them, and leave some rest.
pub fn some_spelling()
    ensures { (limits : Limits) (bytes : List ℕ)
        → (requests : List (RequestParts × ℕ)) × (refusal : Option ReadRefusal)
        × (rest : List ℕ) × AreItems limits bytes requests refusal rest }
{}

/// Bytes spell one list of requests, at most one refusal behind them, and leave one rest.
pub fn one_spelling()
    ensures requests { (limits : Limits) (bytes : List ℕ)
        (requests others : List (RequestParts × ℕ)) (refusal other : Option ReadRefusal)
        (rest left : List ℕ)
        → AreItems limits bytes requests refusal rest → AreItems limits bytes others other left
        → requests ≡ others }
    ensures refusal { (limits : Limits) (bytes : List ℕ)
        (requests others : List (RequestParts × ℕ)) (refusal other : Option ReadRefusal)
        (rest left : List ℕ)
        → AreItems limits bytes requests refusal rest → AreItems limits bytes others other left
        → refusal ≡ other }
    ensures rest { (limits : Limits) (bytes : List ℕ)
        (requests others : List (RequestParts × ℕ)) (refusal other : Option ReadRefusal)
        (rest left : List ℕ)
        → AreItems limits bytes requests refusal rest → AreItems limits bytes others other left
        → rest ≡ left }
{
    one_answer();
    one_form();
}

/// Requests that are spelled stay so whatever follows, and so does a refusal behind them.
pub fn keeps_spelling()
    ensures requests { (limits : Limits) (bytes more : List ℕ) (requests : List (RequestParts × ℕ))
        (rest : List ℕ)
        → SpellsRequests limits bytes requests rest
        → SpellsRequests limits (bytes ++ more) requests (rest ++ more) }
    ensures refusal { (limits : Limits) (bytes more : List ℕ) (requests : List (RequestParts × ℕ))
        (refusal : ReadRefusal) (rest : List ℕ)
        → AreItems limits bytes requests (Some refusal) rest
        → AreItems limits (bytes ++ more) requests (Some refusal) (rest ++ more) }
{
    keeps_answer();
    keeps_form();
}
