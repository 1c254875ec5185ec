//! What the servings of a caller's lines gave.

ghost use Rattle.std.specs.Prelude.{◌++◌, ◌≡◌, OnOk, OnErr, Some};
ghost use Rattle.served_files.specs.Given.{is_over, given_name, given_bytes, names_in, bytes_in};

use voice_model::Reply;
use voice_units::{Name, NoMemory};

/// The file of a serving, as its line names it, and the samples that were heard, of 8,000 a second.
#[derive(Drop)]
pub struct Heard {
    pub file: Name,
    pub bytes: Vec<u8>,
}

/// Whether a reply tells that a job is over.
pub fn is_over(reply: &Reply) -> bool
    ensures { result ≡ is_over reply.now }
{
    matches!(reply, Reply::Ended(_, _) | Reply::Stopped(_, _))
}

/// Keeps what was heard of a job, as the file of that name, where the reply tells that it is over. After `NoMemory` the list is as it was.
pub fn keep(
    heard: &mut Vec<Heard>,
    file: Name,
    bytes: Vec<u8>,
    reply: &Reply,
) -> Result<(), NoMemory>
    ensures names { OnOk result (names_in heard.new.items ≡ names_in heard.old.items ++ given_name (is_over reply.now) (Some file)) }
    ensures bytes { OnOk result (bytes_in heard.new.items ≡ bytes_in heard.old.items ++ given_bytes (is_over reply.now) bytes.items) }
    ensures err { OnErr result (heard.new.items ≡ heard.old.items) }
{
    if !is_over(reply) {
        return Ok(());
    }
    heard.push(Heard { file, bytes })?;
    Ok(())
}
