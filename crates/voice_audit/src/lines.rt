//! The lines of an audit.

ghost use Rattle.std.specs.Prelude.{◌≡◌, ℕ, ◌++◌, IfOk, OnOk, codes};
ghost use Rattle.voice_audit.specs.Audit.{sizes_text, graces_text, shape_text, journal_text, moment_text, rope_text, class_word, row_text, blocks_text};

use voice_model::{Class, Row};
use voice_units::{Moment, NoMemory, RopeId, Shape};

/// Appends the version of a disk, the form of its current area, and the sizes.
fn put_sizes(shape: &Shape, form: u8, out: &mut Vec<u8>) -> Result<(), NoMemory>
    ensures { OnOk result (out.new.items ≡ out.old.items ++ sizes_text shape.now form) }
{
    let alloc = *out.allocator();
    let version = shape.version;
    let block = shape.block;
    let blocks = shape.blocks;
    let area = shape.area;
    let text = format!(in alloc;
        "version {version} form {form} block {block} blocks {blocks} area {area}"
    )?;
    out.extend_from_slice(text.as_bytes())?;
    Ok(())
}

/// Appends the graces of a disk, the common one first, and its lanes.
fn put_graces(shape: &Shape, out: &mut Vec<u8>) -> Result<(), NoMemory>
    ensures { OnOk result (out.new.items ≡ out.old.items ++ graces_text shape.now) }
{
    let alloc = *out.allocator();
    let common = shape.graces.common;
    let held = shape.graces.held;
    let until = shape.graces.until;
    let listed = shape.graces.listed;
    let lanes = shape.lanes;
    let text = format!(in alloc; " graces {common} {held} {until} {listed} lanes {lanes}\n")?;
    out.extend_from_slice(text.as_bytes())?;
    Ok(())
}

/// Appends the shape of a disk, and the form of its current area.
pub(crate) fn put_shape(shape: &Shape, form: u8, out: &mut Vec<u8>) -> Result<(), NoMemory>
    ensures { OnOk result (out.new.items ≡ out.old.items ++ shape_text shape.now form) }
{
    put_sizes(shape, form, out)?;
    put_graces(shape, out)
}

/// Appends the epoch of the current area, and how many bytes are left there.
pub(crate) fn put_journal(epoch: u64, left: u64, out: &mut Vec<u8>) -> Result<(), NoMemory>
    ensures { OnOk result (out.new.items ≡ out.old.items ++ journal_text epoch left) }
{
    let alloc = *out.allocator();
    let line = format!(in alloc; "journal epoch {epoch} left {left}\n")?;
    out.extend_from_slice(line.as_bytes())?;
    Ok(())
}

/// Appends the moment, and the number of the next rope.
pub(crate) fn put_moment(moment: Moment, next: u64, out: &mut Vec<u8>) -> Result<(), NoMemory>
    ensures { OnOk result (out.new.items ≡ out.old.items ++ moment_text moment next) }
{
    let alloc = *out.allocator();
    let moment = moment.number();
    let line = format!(in alloc; "now {moment} next {next}\n")?;
    out.extend_from_slice(line.as_bytes())?;
    Ok(())
}

/// Appends a rope: its number, and how many samples, pieces and rows it has.
pub(crate) fn put_rope(
    id: RopeId,
    samples: u32,
    pieces: u32,
    rows: u32,
    out: &mut Vec<u8>,
) -> Result<(), NoMemory>
    ensures { OnOk result (out.new.items ≡ out.old.items ++ rope_text id samples pieces rows) }
{
    let alloc = *out.allocator();
    let id = id.number();
    let line = format!(in alloc; "rope {id} length {samples} pieces {pieces} rows {rows}\n")?;
    out.extend_from_slice(line.as_bytes())?;
    Ok(())
}

/// The word of a class.
fn class_word(class: Class) -> &'static [u8]
    ensures { result.now ≡ class_word class }
{
    match class {
        Class::Held => b"held",
        Class::Until => b"until",
        Class::Listed => b"listed",
    }
}

/// Appends an interest: its class, its key, its rope and its note.
pub(crate) fn put_row(row: &Row, out: &mut Vec<u8>) -> Result<(), NoMemory>
    ensures { OnOk result (out.new.items ≡ out.old.items ++ row_text row.now) }
{
    let alloc = *out.allocator();
    let id = row.rope.number();
    let note = &row.note;
    let behind = format!(in alloc; " {id} {note}\n")?;
    out.extend_from_slice(b"row ")?;
    out.extend_from_slice(class_word(row.class))?;
    out.extend_from_slice(b" ")?;
    out.extend_from_slice(row.key.bytes())?;
    out.extend_from_slice(behind.as_bytes())?;
    Ok(())
}

/// Appends how many blocks are in use, how many of them two live ropes use, or more, and how many are free.
pub(crate) fn put_blocks(
    used: u32,
    shared: usize,
    free: u32,
    out: &mut Vec<u8>,
) -> Result<(), NoMemory>
    ensures { OnOk result (out.new.items ≡ out.old.items ++ blocks_text used shared free) }
{
    let alloc = *out.allocator();
    let line = format!(in alloc; "blocks used {used} shared {shared} free {free}\n")?;
    out.extend_from_slice(line.as_bytes())?;
    Ok(())
}
