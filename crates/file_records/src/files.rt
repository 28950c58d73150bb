// How the file of a record is made and opened.

ghost use Rattle.std.specs.Prelude.{◌≡◌, ◌↔◌, ◌⊎◌, ◌<◌, ◌≤◌, false, [], ◌∷◌, length, Some, Err, IfOk, IfErr, List, ℕ};
ghost use Rattle.file_plate.specs.FilePlates.{file_state, IsOpened};
ghost use Rattle.rotating_record.specs.Slots.{record_on};
ghost use Rattle.file_plate.specs.FileFaults.{IsOverFault, IsHoldFault};
ghost use Rattle.file_records.specs.Faults.{file_fault_of, IsDraftFault, IsOpenFault, HasNone};

use crate::drafts::Draft;
use file_plate::{DiskFile, FileFault, FilePlate, hold};
use rotating_record::{ROTATING_PLATE_LEN, RotatingRecord};
use slot_record::SlotFault;
use stable_record::MAX_RECORD_LEN;
use std::alloc::Global;
use std::fs::{File, Files};

/// A record on a file.
pub type FileRecord = RotatingRecord<FilePlate<DiskFile>>;

/// The fault of a file that stands for a fault of the record on it.
fn file_fault(fault: SlotFault) -> FileFault
    ensures { result ≡ file_fault_of fault }
{
    match fault {
        SlotFault::TooSmall => FileFault::WrongSize,
        SlotFault::NotFormatted => FileFault::NotFormatted,
        SlotFault::TooLong => FileFault::TooLong,
        SlotFault::Memory => FileFault::Memory,
        SlotFault::Device | SlotFault::Spent => FileFault::Unreadable,
    }
}

/// Makes a new record of these bytes under this name. Another process that opens it finds these bytes
/// or no file, whenever this process or the power stops.
///
/// It returns the first of these faults: 404 (more than `MAX_RECORD_LEN` bytes), 947 (the name is taken),
/// 933 (out of memory), 941 (another process makes this record), 946 (the file, its name or its folder
/// can't be written or synced), 945 (the name can't be looked up, or the new file can't be locked or read).
/// After 946 the record may be there under its name.
pub fn create_record<R: Files<File = File>>(
    files: &R,
    alloc: Global,
    path: &str,
    bytes: &[u8],
) -> Result<FileRecord, FileFault>
    ensures made { IfOk result (λ r. (r.finds ≡ bytes.now ∷ []) × (r.sequence ≡ 1) × (r.stuck ≡ false)) }
    // Whatever a crash leaves from now on, opening finds just these bytes.
    ensures lasts { IfOk result (λ r. (c : List ℕ) → (file_state r.plate).may_leave c → record_on c ≡ Some (1, bytes.now)) }
    // No call of the file failed.
    ensures fine { IfOk result (λ r. (file_state r.plate).failures ≡ 0) }
    ensures too_long { (result ≡ Err FileFault.TooLong) ↔ (MAX_RECORD_LEN < length bytes.now) }
    // It returns no other fault.
    ensures faults { IfErr result (λ fault. (fault ≡ FileFault.TooLong) ⊎ IsDraftFault fault) }
{
    if bytes.len() > MAX_RECORD_LEN {
        return Err(FileFault::TooLong);
    }
    let draft = match Draft::begin(files, alloc, path) {
        Ok(draft) => draft,
        Err(fault) => return Err(fault),
    };
    match draft.write(files, alloc, bytes) {
        Ok(written) => written.publish(files),
        Err(fault) => Err(fault),
    }
}

/// The record on a plate, and its bytes. With a fault it returns the plate.
fn opened(
    alloc: Global,
    plate: FilePlate<DiskFile>,
) -> Result<(FileRecord, Vec<u8>), (FilePlate<DiskFile>, FileFault)>
    requires { IsOpened ROTATING_PLATE_LEN plate }
    ensures opened { IfOk result (λ r. (r.0.finds ≡ r.1.items ∷ []) × (r.0.stuck ≡ false)) }
    ensures lasts { IfOk result (λ r. (c : List ℕ) → (file_state r.0.plate).may_leave c → record_on c ≡ Some (r.0.sequence, r.1.items)) }
    ensures fine { IfOk result (λ r. (file_state r.0.plate).failures ≡ 0) }
    ensures faults { IfErr result (λ e. IsOpenFault e.1) }
    // 944 comes only if no slot has a record.
    ensures unformatted { IfErr result (λ e. e.1 ≡ FileFault.NotFormatted → HasNone e.0) }
{
    match RotatingRecord::open(alloc, plate) {
        Ok(found) => Ok(found),
        Err((plate, fault)) => Err((plate, file_fault(fault))),
    }
}

/// Opens the record of this name, whatever a crash made of it, and finds its bytes. It changes nothing.
///
/// It returns the first of these faults: 942 (there is no such file), 945 (it can't be opened), 941 (another
/// process has the record open), 945 (it can't be locked, or is no regular file), 943 (it has the wrong
/// size), 933 (out of memory), 946 (it can't be synced), 945 (it can't be read), 933, 944 (it holds no
/// record).
pub fn open_record<R: Files<File = File>>(
    files: &R,
    alloc: Global,
    path: &str,
) -> Result<(FileRecord, Vec<u8>), FileFault>
    ensures opened { IfOk result (λ r. (r.0.finds ≡ r.1.items ∷ []) × (r.0.stuck ≡ false)) }
    // Whatever a crash leaves from now on, opening finds just these bytes.
    ensures lasts { IfOk result (λ r. (c : List ℕ) → (file_state r.0.plate).may_leave c → record_on c ≡ Some (r.0.sequence, r.1.items)) }
    // No call of the file failed.
    ensures fine { IfOk result (λ r. (file_state r.0.plate).failures ≡ 0) }
    // It returns no other fault.
    ensures faults { IfErr result (λ fault. IsHoldFault fault ⊎ IsOverFault fault ⊎ (fault ≡ FileFault.NotFormatted)) }
{
    let file = hold(files, path, ROTATING_PLATE_LEN)?;
    let plate = FilePlate::over(alloc, file, ROTATING_PLATE_LEN)?;
    match opened(alloc, plate) {
        Ok(found) => Ok(found),
        Err((_, fault)) => Err(fault),
    }
}
