// What the bytes of a file hold, as a value and as lines.

ghost use Rattle.std.specs.Prelude.{◌≡◌, ◌↔◌, ◌≢◌, ◌⊎◌, length, Err, IfOk, IfErr, OnOk, ◌++◌, List, ℕ, option_map, string_bytes};
ghost use Rattle.slot_record.specs.declared.slots.TheConstants.{LEAST_PLATE_LEN as TWO};
ghost use Rattle.rotating_record.specs.declared.slots.TheConstants.{ROTATING_PLATE_LEN as THREE};
ghost use Rattle.slot_record.specs.Slots as TwoSlots;
ghost use Rattle.rotating_record.specs.Slots as ThreeSlots;
ghost use Rattle.record_view.specs.Views.{Finds};
ghost use Rattle.record_view.specs.Texts.{SaysFound, SaysTwo, SaysThree};

use crate::contents::push_body;
use crate::finding::{find_in_three, find_in_two};
use crate::slots::{push_three, push_two};
use file_plate::FileFault;
use rotating_record::ROTATING_PLATE_LEN;
use slot_record::LEAST_PLATE_LEN;
use std::alloc::{AllocError, Global};
use std::fmt;

/// What a record's file holds.
#[derive(Drop)]
pub struct RecordView {
    /// The body that opening finds, if it finds one.
    pub body: Option<Vec<u8>>,
    /// The lines: the size, the slots, and the record that is found.
    pub text: String,
}

/// Adds what is said of the body that is found.
fn push_found(alloc: Global, text: &mut String, body: &Option<Vec<u8>>) -> Result<(), AllocError>
    ensures { OnOk result ((words : List ℕ) × SaysFound (option_map (λ v. v.items) body.now) words × (string_bytes text.new ≡ string_bytes text.old ++ words)) }
{
    let Some(body) = body else {
        return text.push_str("no slot has a record\n");
    };
    push_body(alloc, text, body)?;
    Ok(())
}

/// What two slots hold.
fn view_two(alloc: Global, bytes: &[u8]) -> Result<RecordView, AllocError>
    requires { length bytes.now ≡ TWO }
    ensures finds { IfOk result (λ v. Finds v.body (TwoSlots.found_on bytes.now)) }
    ensures says { IfOk result (λ v. SaysTwo bytes.now (string_bytes v.text)) }
{
    let body = find_in_two(alloc, bytes)?;
    let mut text = String::new(alloc);
    push_two(&mut text, bytes)?;
    push_found(alloc, &mut text, &body)?;
    Ok(RecordView { body, text })
}

/// What three slots hold.
fn view_three(alloc: Global, bytes: &[u8]) -> Result<RecordView, AllocError>
    requires { length bytes.now ≡ THREE }
    ensures finds { IfOk result (λ v. Finds v.body (ThreeSlots.found_on bytes.now)) }
    ensures says { IfOk result (λ v. SaysThree bytes.now (string_bytes v.text)) }
{
    let body = find_in_three(alloc, bytes)?;
    let mut text = String::new(alloc);
    push_three(&mut text, bytes)?;
    push_found(alloc, &mut text, &body)?;
    Ok(RecordView { body, text })
}

/// Finds what the bytes of a file hold.
///
/// It returns 943 if the file has the size of neither format, or 933 if memory runs out.
pub fn view(alloc: Global, bytes: &[u8]) -> Result<RecordView, FileFault>
    ensures size { (result ≡ Err FileFault.WrongSize) ↔ ((length bytes.now ≢ TWO) × (length bytes.now ≢ THREE)) }
    ensures two { length bytes.now ≡ TWO → IfOk result (λ v. Finds v.body (TwoSlots.found_on bytes.now)) }
    ensures says_two { length bytes.now ≡ TWO → IfOk result (λ v. SaysTwo bytes.now (string_bytes v.text)) }
    ensures faults { IfErr result (λ fault. (fault ≡ FileFault.WrongSize) ⊎ (fault ≡ FileFault.Memory)) }
    ensures three { length bytes.now ≡ THREE → IfOk result (λ v. Finds v.body (ThreeSlots.found_on bytes.now)) }
    ensures says_three { length bytes.now ≡ THREE → IfOk result (λ v. SaysThree bytes.now (string_bytes v.text)) }
{
    let seen = if bytes.len() == LEAST_PLATE_LEN as usize {
        view_two(alloc, bytes)
    } else if bytes.len() == ROTATING_PLATE_LEN as usize {
        view_three(alloc, bytes)
    } else {
        return Err(FileFault::WrongSize);
    };
    match seen {
        Ok(view) => Ok(view),
        Err(_) => Err(FileFault::Memory),
    }
}

impl fmt::Display for RecordView {
    ghost use Rattle.std.specs.Prelude.{Some, string_bytes};

    ghost output = { λ v. Some (string_bytes v.text) };

    fn fmt<W: fmt::Write>(&self, f: &mut fmt::Formatter<W>) -> fmt::Result {
        f.write_str(self.text.as_str())
    }
}
