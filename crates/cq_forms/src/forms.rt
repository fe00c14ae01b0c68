//! A message in each form.

ghost use Rattle.std.specs.Prelude.{◌≡◌, ◌++◌, ◌∷◌, [], OnOk};
ghost use Rattle.hex.specs.Hex.{encode_lower};
ghost use Rattle.cq_cycle.specs.Index.{index_text};
ghost use Rattle.cq_forms.specs.Forms.{hex_line, message_line};
ghost use Rattle.cq_forms.specs.Printers.{printed};

use crate::CycleName;
use crate::names::name_in;
use crate::objects::push_json;
use cq_cycle::Index;
use cq_orders::ReadForm;
use std::alloc::{AllocError, Global};
use std::io::Write;

/// In which form messages are printed, with the names of the cycles that have begun.
#[derive(Drop)]
pub struct Printer {
    /// The form.
    pub form: ReadForm,
    /// The names, of which `Json` prints that of the message's cycle.
    pub names: Vec<CycleName>,
}

impl Printer {
    /// Adds a message to the text in this form.
    ///
    /// - `AllocError`: out of memory. A beginning of what is printed may be added.
    pub fn push(
        &self,
        alloc: Global,
        text: &mut Vec<u8>,
        index: Index,
        message: &[u8],
    ) -> Result<(), AllocError>
        ensures { OnOk result (text.new.items ≡ text.old.items ++ printed self.now (index, message.now)) }
    {
        match self.form {
            ReadForm::Line => push_message(text, index, message),
            ReadForm::Text => push_ended(text, message, b'\n'),
            ReadForm::Null => push_ended(text, message, 0),
            ReadForm::Hex => push_hex(alloc, text, index, message),
            ReadForm::Json => {
                let name = name_in(self.names.as_slice(), index.cycle());
                push_json(alloc, text, name, index, message)
            }
        }
    }
}

/// Adds an index, a space, a message and a line feed to the text.
pub fn push_message(text: &mut Vec<u8>, index: Index, message: &[u8]) -> Result<(), AllocError>
    ensures { OnOk result (text.new.items ≡ text.old.items ++ message_line (index, message.now)) }
{
    push_index(text, index)?;
    push_ended(text, message, b'\n')
}

/// Adds an index, a space, the bytes of a message in hexadecimal digits, and a line feed to the text.
fn push_hex(
    alloc: Global,
    text: &mut Vec<u8>,
    index: Index,
    message: &[u8],
) -> Result<(), AllocError>
    ensures { OnOk result (text.new.items ≡ text.old.items ++ hex_line (index, message.now)) }
{
    let digits = hex::encode(alloc, message)?;
    push_index(text, index)?;
    push_ended(text, digits.as_bytes(), b'\n')
}

/// Adds an index and a space to the text.
fn push_index(text: &mut Vec<u8>, index: Index) -> Result<(), AllocError>
    ensures { OnOk result (text.new.items ≡ text.old.items ++ (index_text index ++ 32 ∷ [])) }
{
    write!(text, "{index} ").map_err(|_| AllocError)
}

/// Adds bytes and the one that ends them to the text.
fn push_ended(text: &mut Vec<u8>, bytes: &[u8], end: u8) -> Result<(), AllocError>
    ensures { OnOk result (text.new.items ≡ text.old.items ++ (bytes.now ++ end ∷ [])) }
{
    text.extend_from_slice(bytes)?;
    text.push(end)?;
    Ok(())
}
