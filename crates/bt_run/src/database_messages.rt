//! What the log says of the databases.

ghost use Rattle.std.specs.Prelude.{◌≡◌, ◌++◌, ◌∷◌, [], map, filter, IfOk, OnOk};
ghost use Rattle.bt_log.specs.declared.message.Message.{Message as MessageSeen};
ghost use Rattle.bt_run.specs.ReadCommand.{is_about, is_general};
ghost use Rattle.bt_run.specs.inner.Cases.{in_its_file, file_line, database_told, all_read};

use bt_log::{FileNote, Message, Place, Rank};
use bt_text::{Bytes, Sequence, Shared};
use std::alloc::{AllocError, Global};

/// A message in the log, where it is one about a database in this file.
fn in_its_file(file: &Shared<Bytes>, message: &Message) -> Result<Message, AllocError>
    ensures { IfOk result (λ told. told ≡ in_its_file file.now message.now) }
{
    let mut told = message.share()?;
    if let Some(Place::DatabaseLine { line, byte, .. }) = &message.place {
        told.place = Some(Place::Line {
            file: file.share()?,
            line: *line,
            byte: *byte,
        });
    }
    Ok(told)
}

fn is_about(number: usize, place: &Option<Place>) -> bool
    ensures { result ≡ is_about number place.now }
{
    match place {
        Some(Place::DatabaseLine { database, .. }) => *database == number,
        Some(Place::Line { .. } | Place::WholeFile { .. } | Place::Step { .. }) | None => false,
    }
}

fn is_general(place: &Option<Place>) -> bool
    ensures { result ≡ is_general place.now }
{
    match place {
        Some(Place::DatabaseLine { .. }) => false,
        Some(Place::Line { .. } | Place::WholeFile { .. } | Place::Step { .. }) | None => true,
    }
}

fn file_line(number: usize, file: &Shared<Bytes>) -> Result<Message, AllocError>
    ensures { IfOk result (λ message. message ≡ file_line number file.now) }
{
    let file = file.share()?;
    Ok(Message::of_file(Rank::FileLine, FileNote::DatabaseFile(number), file))
}

fn tell_if_about(
    log: &mut Sequence<Message>,
    number: usize,
    file: &Shared<Bytes>,
    message: &Message,
) -> Result<(), AllocError>
    ensures { OnOk result (log.new
        ≡ log.old ++ map (in_its_file file.now)
        (filter (λ (m : MessageSeen). is_about number m.place) (message.now ∷ []))) }
{
    if is_about(number, &message.place) {
        log.push(in_its_file(file, message)?)?;
    }
    Ok(())
}

fn tell_database(
    log: &mut Sequence<Message>,
    number: usize,
    file: &Shared<Bytes>,
    messages: &[Message],
) -> Result<(), AllocError>
    ensures { OnOk result (log.new ≡ log.old ++ database_told number file.now messages.now) }
{
    log.push(file_line(number, file)?)?;
    'messages: for message in messages {
        tell_if_about(log, number, file, message)?;
    }
    Ok(())
}

fn tell_if_general(log: &mut Sequence<Message>, message: &Message) -> Result<(), AllocError>
    ensures { OnOk result (log.new ≡ log.old ++ filter (λ (m : MessageSeen). is_general m.place) (message.now ∷ [])) }
{
    if is_general(&message.place) {
        log.push(message.share()?)?;
    }
    Ok(())
}

fn tell_general(log: &mut Sequence<Message>, messages: &[Message]) -> Result<(), AllocError>
    ensures { OnOk result (log.new ≡ log.old ++ filter (λ (m : MessageSeen). is_general m.place) messages.now) }
{
    'messages: for message in messages {
        tell_if_general(log, message)?;
    }
    Ok(())
}

/// Logs all databases in order, and then what is about none.
pub fn tell_databases(
    alloc: Global,
    log: &mut Sequence<Message>,
    databases: &[Bytes],
    messages: &[Message],
) -> Result<(), AllocError>
    ensures { OnOk result (log.new ≡ log.old ++ all_read databases.now messages.now) }
{
    'databases: for (place, file) in databases.iter().enumerate() {
        let name = Shared::<Bytes>::copied(alloc, file.as_slice())?;
        tell_database(log, place + 1, &name, messages)?;
    }
    tell_general(log, messages)
}
