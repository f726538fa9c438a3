//! Laws of the items of a connection's bytes, of the replies to them, and of connections that linger or may. Each is the
//! contract of a function that does nothing.
ghost use Rattle.std.specs.Prelude.{◌≡◌, ◌==◌, ◌&&◌, ℕ, ◌<◌, Bool, true, false, List, [], ◌∷◌, ◌++◌, drop, length, Some, IfSome};
ghost use Rattle.std.proofs.Common.{inl, inr};
ghost use Rattle.mpm_base.specs.Notes.{says_last};
ghost use Rattle.mpm_base.specs.declared.conn.Cause.{Cause};
ghost use Rattle.mpm_base.specs.declared.conn.Cause.TheVariants.{ReadLate};
ghost use Rattle.mpm_base.specs.declared.note.Note.{Note};
ghost use Rattle.http_read.specs.declared.request.Limits.{Limits};
ghost use Rattle.http_read.specs.RequestParts.{RequestParts};
ghost use Rattle.http_read.specs.Requests.{ReadRefusal, BeginsRefusal, WaitsForRequest};
ghost use Rattle.file_table.specs.Site.{SeenSite};
ghost use Rattle.http_core.specs.Code.{refuses_head};
ghost use Rattle.conn_state.specs.Items.{Item, BeginsItem, AreFirst};
ghost use Rattle.conn_state.specs.Replies.{AreReplies, Expects, IsFitting, IsInterim, IsNoteFor, IsResponse, MayFollow, first_part, item_ask};
ghost use Rattle.conn_state.specs.Reader.{item_kept};
ghost use Rattle.conn_state.specs.Follows.{what_follows};
ghost use Rattle.conn_state.specs.Rest.{StandsAs, is_awaited, is_in_head};
ghost use Rattle.conn_state.specs.Steps.{IsReadable, WaitsIn};
ghost use Rattle.conn_state.specs.declared.stage.Stage.{Stage};
ghost use Rattle.conn_state.specs.declared.turn.LastTurn.TheVariants as turn;
ghost use Rattle.conn_state.specs.declared.turn.LingerTurn.{LingerTurn};
ghost use Rattle.conn_state.specs.Conn.{SeenConn, IsConn, is_half_closed};
ghost use Rattle.conn_state.specs.Turns.{ShutsOn, LingersOn};
ghost use Rattle.conn_state.specs.Answered.{HasAnswered, MayLinger};

use http_read::{keeps_answer, keeps_spelling, one_answer, one_form};

/// The first items of the bytes that came stay the first, whatever comes behind them.
pub fn first_items_stay()
    ensures { (limits : Limits) (items : List Item) (rest bytes more : List ℕ)
        → AreFirst limits items rest bytes
        → AreFirst limits items (rest ++ more) (bytes ++ more) }
{
    keeps_spelling();
}

/// Bytes that begin with an item don't wait for more.
pub fn items_wait_for_nothing()
    ensures { (limits : Limits) (bytes : List ℕ) (item : Item) (size : ℕ)
        → BeginsItem limits bytes item size
        → ¬ (WaitsForRequest limits bytes) }
{
    one_answer();
    one_form();
}

/// The answered items stay the first, with their notes, whatever comes behind them.
pub fn answered_items_stay()
    ensures { (site : SeenSite) (limits : Limits) (notes : List Note) (bytes : List ℕ)
        (items : List Item) (rest more : List ℕ)
        → IsFitting site limits notes bytes items rest
        → IsFitting site limits notes (bytes ++ more) items (rest ++ more) }
{
    keeps_spelling();
}

/// The next item goes on behind the answered ones with its note, where no note before it was the last.
pub fn answered_items_go_on()
    ensures { (site : SeenSite) (limits : Limits) (notes : List Note) (bytes : List ℕ)
        (items : List Item) (rest : List ℕ) (item : Item) (size : ℕ) (note : Note)
        → IsFitting site limits notes bytes items rest → says_last notes ≡ false
        → BeginsItem limits rest item size → IsNoteFor (item_ask site item) note
        → IsFitting site limits (notes ++ note ∷ []) bytes (items ++ item ∷ []) (drop size rest) }
{}

/// The response to the next item goes on behind the replies before it.
pub fn replies_go_on()
    ensures { (site : SeenSite) (items : List Item) (notes : List Note) (replies : List ℕ)
        (item : Item) (note : Note) (response : List ℕ)
        → AreReplies site items notes replies → IsResponse site item note response
        → AreReplies site (items ++ item ∷ []) (notes ++ note ∷ [])
        (replies ++ (first_part item ++ response)) }
{}

/// No response is empty.
pub fn responses_have_bytes()
    ensures { (site : SeenSite) (item : Item) (note : Note) (response : List ℕ)
        → IsResponse site item note response
        → 0 < length response }
{}

/// What is refused is refused by a code of a refusal's response.
pub fn refusals_have_their_codes()
    ensures { (limits : Limits) (bytes : List ℕ) (refusal : ReadRefusal)
        → BeginsRefusal limits bytes refusal
        → refuses_head refusal.code ≡ true }
{}

/// What is kept of the next request stands for what came behind it too.
pub fn kept_bytes_go_on()
    ensures { (limits : Limits) (unread more : List ℕ) (stage : Stage) (rest : List ℕ)
        → StandsAs limits unread stage rest
        → StandsAs limits (unread ++ more) stage (rest ++ more) }
{
    keeps_answer();
    keeps_spelling();
}

/// Nothing is kept of the next request exactly where no byte stands behind the answered ones.
pub fn kept_bytes_show_empty_rests()
    ensures { (limits : Limits) (unread : List ℕ) (stage : Stage) (rest : List ℕ)
        → StandsAs limits unread stage rest
        → (is_in_head stage && (length unread == 0)) ≡ (length rest == 0) }
{
    one_answer();
    one_form();
}

/// The readers may go on with what stands for any bytes.
pub fn kept_bytes_are_readable()
    ensures { (limits : Limits) (unread : List ℕ) (stage : Stage) (rest : List ℕ)
        → StandsAs limits unread stage rest
        → IsReadable unread stage }
{}

/// A head whose client waits to be told to send the body stays one, whatever comes behind it.
pub fn expecting_heads_stay()
    ensures { (limits : Limits) (bytes more : List ℕ)
        → Expects limits bytes → Expects limits (bytes ++ more) }
{
    keeps_answer();
}

/// Where a step of reading asks for more, the bytes spell neither a request nor a refusal.
pub fn steps_wait_for_requests()
    ensures { (limits : Limits) (unread : List ℕ) (stage : Stage) (rest : List ℕ)
        → WaitsIn limits unread stage rest
        → WaitsForRequest limits rest }
{}

/// A client that waits to be told to send the body is found before a step of reading asks for more, and no other client is found.
pub fn waiting_clients_are_found()
    ensures found { (limits : Limits) (unread : List ℕ) (stage : Stage) (rest : List ℕ)
        → WaitsIn limits unread stage rest
        → Expects limits rest → is_awaited stage ≡ true }
    ensures only { (limits : Limits) (unread : List ℕ) (stage : Stage) (rest : List ℕ)
        → StandsAs limits unread stage rest
        → is_awaited stage ≡ true → Expects limits rest }
{
    one_answer();
}

/// What follows the replies, by how far the next request was read, is what may follow them; it is what is due where more has to
/// come; and where the next item was read it is what is sent before the response to that.
pub fn follows_what_was_read()
    ensures may { (limits : Limits) (notes : List Note) (unread : List ℕ) (stage : Stage)
        (rest : List ℕ)
        → StandsAs limits unread stage rest
        → MayFollow limits notes rest (what_follows notes stage) }
    ensures due { (limits : Limits) (notes : List Note) (unread : List ℕ) (stage : Stage)
        (rest : List ℕ)
        → StandsAs limits unread stage rest
        → WaitsIn limits unread stage rest
        → IsInterim limits notes rest (what_follows notes stage) }
    ensures first { (notes : List Note) (stage : Stage) (item : Item)
        → item_kept stage ≡ Some item → says_last notes ≡ false
        → what_follows notes stage ≡ first_part item }
{
    waiting_clients_are_found();
}

/// The item that was read stands at the front of the bytes; where it is a request, what is kept is left behind it.
pub fn kept_items_begin()
    ensures whole { (limits : Limits) (unread : List ℕ) (request : RequestParts) (rest : List ℕ)
        → StandsAs limits unread (Stage.Whole request) rest
        → (size : ℕ) × BeginsItem limits rest (inl request) size × (unread ≡ drop size rest) }
    ensures refused { (limits : Limits) (unread : List ℕ) (code : ℕ) (expected : Bool)
        (rest : List ℕ)
        → StandsAs limits unread (Stage.Refused code expected) rest
        → BeginsItem limits rest (inr (record { code = code; expected = expected })) 0 }
{}

/// Each connection that lingers was answered for its cause, and its link was half-closed once and isn't closed.
pub fn lingering_connections_are_answered()
    ensures answered { (c : SeenConn) (why : Cause) → IsConn c → MayLinger why c
        → IfSome c.told (HasAnswered why c.site c.reader.limits c.notes) }
    ensures half_closed { (c : SeenConn) → IsConn c → is_half_closed c.linger ≡ true
        → IfSome c.told (λ t. t.shuts ≡ 1) }
    ensures not_closed { (c : SeenConn) → IsConn c → IfSome c.told (λ t. t.closes ≡ 0) }
{
    follows_what_was_read();
    steps_wait_for_requests();
    kept_bytes_show_empty_rests();
}

/// What a connection shows for a cause with which it lingers stays so over the half-close and over each turn of lingering.
pub fn lingering_connections_keep_their_cause()
    ensures half_close { (old new : SeenConn) (made : Bool) (why : Cause)
        → ShutsOn old new made → MayLinger why old → MayLinger why new }
    ensures linger_turn { (old new : SeenConn) (answer : LingerTurn) (why : Cause)
        → LingersOn old new answer → MayLinger why old → MayLinger why new }
{}

/// A connection of which nothing was read shows what one shows that is late with its request.
pub fn untouched_connections_may_be_late()
    ensures { (c : SeenConn) → c.turn ≡ turn.New → MayLinger ReadLate c }
{}
