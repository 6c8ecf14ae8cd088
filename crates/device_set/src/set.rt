//! Devices by name.
ghost use Rattle.std.specs.Prelude.{◌≡◌, ◌<◌, ◌-◌, ◌++◌, ◌∷◌, [], Some, None, IfOk, IfErr, OnOk, OnErr, length, slice_get, take};
ghost use Rattle.device_set.specs.Sets.{devices, number_of};

use indexmap::IndexMap;
use std::alloc::{AllocFailed, Global};
use std::marker::Model;
use tcmu_types::{Name, NoMemory};

/// Devices, each under a name of its own and a number: 0, 1, 2 and so on in the order in which they were added.
#[derive(Drop)]
pub struct DeviceSet<P> {
    devices: IndexMap<Name, P>,
}

impl<P> Model for DeviceSet<P> {
    ghost use Rattle.std.specs.Prelude.{ℕ, ◌<◌, List, length};

    ghost Value = { List (List ℕ × P) };

    ghost view = { λ a. a.devices.entries };

    ghost invariant = { λ a. length a.devices.entries < 4294967296 };
}

impl<P> DeviceSet<P> {
    ghost use Rattle.std.specs.Borrow.{sem};
    ghost use Rattle.device_set.specs.Sets.{HasOwnNames};
    ghost use Rattle.device_set.specs.Lends.{LendsDevice};

    /// No device yet.
    pub fn new(alloc: Global) -> Self
        ensures { result ≡ [] }
    {
        DeviceSet {
            devices: IndexMap::new(alloc),
        }
    }

    /// Adds a device of a new name behind the others, of which there are fewer than 4,294,967,295, and answers its number. Where memory is
    /// wanting the set stays as it was, and the error has the device.
    pub fn insert(&mut self, name: Name, device: P) -> Result<u32, AllocFailed<P>>
    where
        P: Drop,
        requires new { number_of name self.old ≡ None }
        requires room { length self.old < 4294967295 }
        ensures added { OnOk result (self.new ≡ self.old ++ (name, device) ∷ []) }
        ensures number { IfOk result (λ at. at ≡ length self.old) }
        ensures refused { OnErr result (self.new ≡ self.old) }
        ensures given_back { IfErr result (λ e. e.value ≡ device) }
    {
        let at = self.devices.len() as u32;
        match self.devices.insert(name, device) {
            Ok(_) => Ok(at),
            Err(refused) => Err(AllocFailed {
                value: refused.value.1,
            }),
        }
    }

    /// As `insert`; where memory is wanting the device is dropped.
    pub fn add(&mut self, name: Name, device: P) -> Result<u32, NoMemory>
    where
        P: Drop,
        requires new { number_of name self.old ≡ None }
        requires room { length self.old < 4294967295 }
        ensures added { OnOk result (self.new ≡ self.old ++ (name, device) ∷ []) }
        ensures number { IfOk result (λ at. at ≡ length self.old) }
        ensures refused { OnErr result (self.new ≡ self.old) }
    {
        Ok(self.insert(name, device)?)
    }

    /// The number of the device of this name; None exactly where no device has it.
    pub fn position(&self, name: &Name) -> Option<u32>
        ensures { result ≡ number_of name.now self.now }
    {
        match self.devices.get_index_of(name) {
            Some(at) => Some(at as u32),
            None => None,
        }
    }

    /// The device of this number.
    pub fn get(&self, at: u32) -> &P
        requires { at < length self.now }
        ensures { slice_get (devices self.now) at ≡ Some result.now }
    {
        &self.devices[at as usize]
    }

    /// The device of this number, to change it. It keeps its name.
    pub fn get_mut(&mut self, at: u32) -> &mut P
        requires { at < length self.old }
        ensures* writes_back { sem 𝓛 (LendsDevice P.row self.entry at result) }
        ensures value { slice_get (devices self.old) at ≡ Some result.now }
    {
        &mut self.devices[at as usize]
    }

    /// How many devices there are. No two have one name.
    pub fn len(&self) -> u32
        ensures value { result ≡ length self.now }
        ensures own_names { HasOwnNames self.now }
    {
        self.devices.len() as u32
    }

    /// Takes the last device out; None exactly where there is none.
    pub fn pop(&mut self) -> Option<P>
        ensures rest { self.new ≡ take (length self.old - 1) self.old }
        ensures last { result ≡ slice_get (devices self.old) (length self.old - 1) }
    {
        match self.devices.pop() {
            Some((_, device)) => Some(device),
            None => None,
        }
    }
}
