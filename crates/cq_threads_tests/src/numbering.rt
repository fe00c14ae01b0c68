//! Messages that say who wrote them, and in which order.

ghost use Rattle.std.specs.Prelude.{◌≡◌, ◌↔◌, [], ◌∷◌, IsTrue};

/// Whether a message is the name of its writer and this number, a byte each.
pub fn is_numbered(message: &[u8], writer: u8, number: u8) -> bool
    ensures { IsTrue result ↔ (message.now ≡ writer ∷ number ∷ []) }
{
    message == [writer, number].as_slice()
}
