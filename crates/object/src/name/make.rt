//! The makers of names, which alone know the rule, and the way back to the units.
ghost use Rattle.std.specs.Prelude.{◌≡◌, ◌≤◌, true, length, is_some, IfSome};
ghost use Rattle.std.specs.List.{list_all};
ghost use Rattle.object.specs.Legal.{legal_unit, legal_name};
ghost use Rattle.object.specs.Names.{units_of, named, name_in};

use crate::name::{MAX_UNITS, Name};
use byte_parts::cut::cut_number;

fn is_legal(unit: u16) -> bool
    ensures { result ≡ legal_unit unit }
{
    unit >= 0x0020 && unit != 0x002f && unit != 0x003a && unit != 0x005c
}

fn are_legal(units: &[u16]) -> bool
    ensures { result ≡ list_all legal_unit units.now }
{
    units.iter().all(|unit| is_legal(*unit))
}

#[tactic(auto, unfolding(crate::specs::Legal::legal_name))]
fn is_legal_name(units: &[u16]) -> bool
    ensures value { result ≡ legal_name units.now }
    ensures short { result ≡ true → length units.now ≤ 63 }
{
    units.len() >= 1 && units.len() <= MAX_UNITS && are_legal(units)
}

impl Name {
    /// The name with these units, if they make a legal one.
    pub fn from_units(units: &[u16]) -> Option<Name>
        ensures value { result ≡ named units.now }
        ensures legal { is_some result ≡ legal_name units.now }
        ensures units { IfSome result (λ n. units_of n ≡ units.now) }
    {
        if !is_legal_name(units) {
            return None;
        }
        let mut cells = [0; MAX_UNITS];
        cells[..units.len()].copy_from_slice(units);
        Some(Name {
            units: cells,
            len: units.len() as u8,
        })
    }

    /// The name whose units `bytes` hold, two bytes each with the lower one first, if that is a legal one.
    pub fn from_bytes(bytes: &[u8]) -> Option<Name>
        ensures { result ≡ name_in bytes.now }
    {
        let count = bytes.len() / 2;
        if count > MAX_UNITS {
            return None;
        }
        let mut cells = [0; MAX_UNITS];
        let mut rest = bytes;
        for cell in cells[..count].iter_mut() {
            (*cell, rest) = cut_number(rest)?;
        }
        if !rest.is_empty() {
            return None;
        }
        Name::from_units(&cells[..count])
    }

    // How many cells hold units.
    fn used(&self) -> usize
        ensures value { result ≡ self.now.len }
        ensures bound { (1 ≤ result) × (result ≤ 63) }
    {
        self.len as usize
    }

    /// The name's units.
    pub fn units(&self) -> &[u16]
        ensures value { result.now ≡ units_of self.now }
        ensures bound { (1 ≤ length result.now) × (length result.now ≤ 63) }
    {
        &self.units[..self.used()]
    }
}
