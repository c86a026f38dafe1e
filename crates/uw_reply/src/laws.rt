//! Laws of the bytes of replies. Each is the contract of a function that does nothing.
ghost use Rattle.std.specs.Prelude.{◌≡◌, ◌+◌, ℕ, ◌==◌, Bool, false, true, List, [], ◌++◌, All, IsTrue, filter, length};
ghost use Rattle.uw_reply.specs.declared.reply.Reply.{Reply};
ghost use Rattle.uw_reply.specs.ReplyBytes.{head_of_reply, is_break, reply_text_of, without_breaks, written_body};

/// A closed reply has no bytes.
pub fn closed_reply_has_no_bytes()
    ensures { (reply : Reply) (head_only : Bool) → IsTrue reply.closed → reply_text_of reply head_only ≡ [] }
{}

/// A whole reply is the reply to a request for the head only, and behind it the body.
pub fn head_reply_lacks_the_body_alone()
    ensures { (reply : Reply) → reply_text_of reply false ≡ reply_text_of reply true ++ written_body reply }
{}

/// A status or a header line as it is written out holds no byte 0, no line feed and no carriage return.
pub fn written_line_is_unbroken()
    ensures { (text : List ℕ) → All (λ byte. is_break byte ≡ false) (without_breaks text) }
{}

/// A status or a header line that holds none of these bytes is written out as it is.
pub fn unbroken_line_is_kept()
    ensures { (text : List ℕ) → All (λ byte. is_break byte ≡ false) text → without_breaks text ≡ text }
{}

/// Whatever a status and header lines hold, their part of a reply has as many line feeds and carriage
/// returns as it has lines, and no byte 0.
pub fn lines_are_counted()
    ensures feeds { (reply : Reply) → length (filter (λ byte. byte == 10) (head_of_reply reply)) ≡ 1 + length reply.headers }
    ensures returns { (reply : Reply) → length (filter (λ byte. byte == 13) (head_of_reply reply)) ≡ 1 + length reply.headers }
    ensures zeros { (reply : Reply) → length (filter (λ byte. byte == 0) (head_of_reply reply)) ≡ 0 }
{}
