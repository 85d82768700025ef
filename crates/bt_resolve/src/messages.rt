//! Messages, one after another.

ghost use Rattle.std.specs.Prelude.{◌≡◌, ◌++◌, ◌∷◌, [], OnOk};

use bt_log::Message;
use bt_text::Sequence;
use std::alloc::AllocError;

pub fn add_message(messages: &mut Sequence<Message>, message: Message) -> Result<(), AllocError>
    ensures { OnOk result (messages.new ≡ messages.old ++ message ∷ []) }
{
    messages.push(message)?;
    Ok(())
}
