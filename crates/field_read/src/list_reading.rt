//! The field file: bytes in, and what it says out where it is right, or its first fault where that lies across its
//! lists. It is read at once, and in a second try with only the last of repeated names. Each try says nothing of a file
//! at which it gives up.

ghost use Rattle.std.specs.Prelude.{◌≡◌, [], IfSome, IfOk, IfErr};
ghost use Rattle.serde_json.specs.Data.{Data};
ghost use Rattle.scenario_read.specs.Fields.{held};
ghost use Rattle.scenario_read.specs.Answers.{Reads, OnRefusal};
ghost use Rattle.scenario_checked.specs.Inside.{scenario};
ghost use Rattle.scenario_file.specs.Source.{Writes};
ghost use Rattle.field_read.specs.Answers.{IsFirstFieldFault};
ghost use Rattle.field_read.specs.Content.{field_content, field_of};
ghost use Rattle.field_read.specs.Checks.{file_faults};
ghost use Rattle.field_read.specs.Right.{SaysNames};

use crate::lists_fit;
use crate::whole::{Listed, whole_of};
use scenario_data::ReadFail;
use scenario_file::{FileLeft, parts_with};
use std::alloc::Global;

/// The names of a field file.
const NAMES: [&str; 4] = ["scenario", "bank", "pulses", "respond"];

/// What the names of a field file say, whose names appear this often, where all of it is read and no name is at fault.
fn names_with<'a>(alloc: Global, bytes: &'a [u8], left: FileLeft) -> Option<Listed<'a>>
    ensures { IfSome result (λ l. (d : Data) × Reads bytes.now d × SaysNames l d) }
{
    let parts = parts_with(alloc, bytes, left)?;
    let listed = whole_of(parts)?;
    Some(listed)
}

/// Reads a field file that is right, whose names appear this often, or finds its first fault where that lies across its
/// lists.
fn listed_with<'a>(alloc: Global, bytes: &'a [u8], left: FileLeft) -> Result<Listed<'a>, ReadFail>
    ensures ok { IfOk result (λ l. (d : Data) × Reads bytes.now d × (file_faults d ≡ []) × (field_content l.field ≡ field_of d) × Writes l.text (held scenario d)) }
    ensures refused { IfErr result (λ fail. OnRefusal fail (IsFirstFieldFault bytes.now)) }
{
    let Some(listed) = names_with(alloc, bytes, left) else {
        return Err(ReadFail::NoMemory);
    };
    match lists_fit(alloc, &listed.field) {
        Ok(()) => Ok(listed),
        Err(fail) => Err(fail),
    }
}

/// Reads a valid field file, in time that grows with its bytes and in the memory of what it says. It is the first try,
/// and the only one that most valid files need: no name is counted beforehand. The refusal is the first fault of the
/// file, if it concerns several lists and all of them were read. Out of memory also means that this way gives no
/// answer: a name or its value is at fault, or an earlier of equal names, or a detector or a pulse names a round or a
/// cabinet that doesn't exist.
pub fn listed<'a>(alloc: Global, bytes: &'a [u8]) -> Result<Listed<'a>, ReadFail>
    ensures ok { IfOk result (λ l. (d : Data) × Reads bytes.now d × (file_faults d ≡ []) × (field_content l.field ≡ field_of d) × Writes l.text (held scenario d)) }
    ensures refused { IfErr result (λ fail. OnRefusal fail (IsFirstFieldFault bytes.now)) }
{
    listed_with(alloc, bytes, FileLeft::none(alloc))
}

/// Reads a valid field file: of equal names, its own, the scenario's and those of the scenario's master, only the last,
/// because the value of an earlier one may be at fault or large. It takes time and memory as `listed` does, the time of
/// passes that count the names, and room to count those of the master. It is the second try, for files at which
/// `listed` gave up and in which `first_fault` finds none: if memory was enough for these, a valid file has repeated
/// names. The refusal is the first fault of the file, as that of `listed` is. Out of memory also means that this way
/// gives no answer: a name or its last value is at fault, or an earlier of other equal names, or a detector or a pulse
/// names a round or a cabinet that doesn't exist.
pub fn listed_again<'a>(alloc: Global, bytes: &'a [u8]) -> Result<Listed<'a>, ReadFail>
    ensures ok { IfOk result (λ l. (d : Data) × Reads bytes.now d × (file_faults d ≡ []) × (field_content l.field ≡ field_of d) × Writes l.text (held scenario d)) }
    ensures refused { IfErr result (λ fail. OnRefusal fail (IsFirstFieldFault bytes.now)) }
{
    match FileLeft::counted(alloc, bytes, &NAMES) {
        Some(left) => listed_with(alloc, bytes, left),
        None => Err(ReadFail::NoMemory),
    }
}
