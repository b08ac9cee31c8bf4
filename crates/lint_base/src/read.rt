//! Reading a whole file from a shelf.
ghost use Rattle.std.specs.Prelude.{◌≡◌, ℕ, ◌+◌, ◌^◌, ◌<◌, ◌≤◌, [], ◌++◌, take, length, Some, IfSome, IfOk, IsErrOf, vec_len};
ghost use Rattle.lint_base.specs.Counts.{Rose};
ghost use Rattle.lint_base.specs.Shelf.{file_at};

use crate::place::Failed;
use crate::shelf::Shelf;
use crate::stops::ReadStop;
use std::alloc::Global;

const PIECE: usize = 4096;

/// Reads the file at the path, of at most `limit` bytes, in pieces of 4,096 bytes. `OpenFault` and
/// `ReadFault` come where the shelf failed, `TooLong` where the file holds more than `limit`
/// bytes, `NoMemory` where memory ran out.
pub fn read_file<H: Shelf>(
    alloc: Global,
    shelf: &mut H,
    path: &str,
    limit: u32,
) -> Result<Vec<u8>, ReadStop>
    ensures files { H.files shelf.new ≡ H.files shelf.old }
    ensures whole { IfOk result
        (λ bytes. IfSome (H.files shelf.old) (λ held. held path.now ≡ Some bytes.items)) }
    ensures length { IfOk result (λ bytes. length bytes.items ≡ H.given shelf.new) }
    ensures open_fault { IsErrOf result ReadStop.OpenFault
        → Rose (H.open_faults shelf.old) (H.open_faults shelf.new)
        × (H.failed_path shelf.new ≡ Some path.now) }
    ensures read_fault { IsErrOf result ReadStop.ReadFault
        → Rose (H.read_faults shelf.old) (H.read_faults shelf.new)
        × (H.opened_path shelf.new ≡ Some path.now) }
    ensures opens_stand { (IsErrOf result ReadStop.OpenFault → ⊥)
        → H.open_faults shelf.new ≡ H.open_faults shelf.old }
    ensures reads_stand { (IsErrOf result ReadStop.ReadFault → ⊥)
        → H.read_faults shelf.new ≡ H.read_faults shelf.old }
    ensures opens_later { H.open_faults shelf.old ≤ H.open_faults shelf.new }
    ensures reads_later { H.read_faults shelf.old ≤ H.read_faults shelf.new }
    ensures opened { (IsErrOf result ReadStop.OpenFault → ⊥)
        → H.opened_path shelf.new ≡ Some path.now }
    ensures failed_stands { (IsErrOf result ReadStop.OpenFault → ⊥)
        → H.failed_path shelf.new ≡ H.failed_path shelf.old }
    ensures opened_stands { IsErrOf result ReadStop.OpenFault
        → H.opened_path shelf.new ≡ H.opened_path shelf.old }
    ensures given_stands { IsErrOf result ReadStop.OpenFault
        → H.given shelf.new ≡ H.given shelf.old }
    ensures too_long { IsErrOf result ReadStop.TooLong → limit < H.given shelf.new }
    ensures file_too_long { IsErrOf result ReadStop.TooLong
        → IfSome (file_at (H.files shelf.old) path.now) (λ file. limit < length file) }
    ensures within { (IsErrOf result ReadStop.TooLong → ⊥)
        → (IsErrOf result ReadStop.OpenFault → ⊥)
        → H.given shelf.new ≤ limit }
    ensures stops { (IsErrOf result ReadStop.OpenFault → ⊥) → H.given shelf.new ≤ limit + 4096 }
{
    match shelf.open_file(path) {
        Ok(()) => read_rest(alloc, shelf, limit as usize),
        Err(Failed) => Err(ReadStop::OpenFault),
    }
}

fn read_rest<H: Shelf>(alloc: Global, shelf: &mut H, limit: usize) -> Result<Vec<u8>, ReadStop>
    requires start { H.given shelf.old ≡ 0 }
    requires small { limit < 2 ^ 32 }
    ensures files { H.files shelf.new ≡ H.files shelf.old }
    ensures whole { IfOk result (λ bytes. IfSome (H.left shelf.old) (λ file. file ≡ bytes.items)) }
    ensures length { IfOk result (λ bytes. length bytes.items ≡ H.given shelf.new) }
    ensures open_fault { IsErrOf result ReadStop.OpenFault → ⊥ }
    ensures read_fault { IsErrOf result ReadStop.ReadFault
        → Rose (H.read_faults shelf.old) (H.read_faults shelf.new) }
    ensures reads_stand { (IsErrOf result ReadStop.ReadFault → ⊥)
        → H.read_faults shelf.new ≡ H.read_faults shelf.old }
    ensures reads_later { H.read_faults shelf.old ≤ H.read_faults shelf.new }
    ensures open_faults { H.open_faults shelf.new ≡ H.open_faults shelf.old }
    ensures opened_path { H.opened_path shelf.new ≡ H.opened_path shelf.old }
    ensures failed_path { H.failed_path shelf.new ≡ H.failed_path shelf.old }
    ensures too_long { IsErrOf result ReadStop.TooLong → limit < H.given shelf.new }
    ensures file_too_long { IsErrOf result ReadStop.TooLong
        → IfSome (H.left shelf.old) (λ file. limit < length file) }
    ensures within { (IsErrOf result ReadStop.TooLong → ⊥) → H.given shelf.new ≤ limit }
    ensures stops { H.given shelf.new ≤ limit + 4096 }
{
    let mut bytes = Vec::new(alloc);
    let mut piece = [0; PIECE];
    loop {
        let Ok(count) = shelf.read(&mut piece) else {
            return Err(ReadStop::ReadFault);
        };
        if count == 0 {
            return Ok(bytes);
        }
        if count > limit - bytes.len() {
            return Err(ReadStop::TooLong);
        }
        bytes.extend_from_slice(&piece[..count])?;
    }
}
