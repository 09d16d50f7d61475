ghost use Rattle.std.specs.Prelude.{◌≡◌, ◌++◌, ◌∷◌, [], OnOk};
ghost use Rattle.std.specs.List.{list_any};
ghost use Rattle.capture_texts.specs.Servers.{is_address, with_server, server_number, address_of};

use lease_state::{Bytes, Memory};
use std::alloc::Global;

/// The addresses of servers, which have the numbers from 1 on in the order in which they come.
#[derive(Debug, Drop)]
pub(crate) struct Servers {
    addresses: Vec<Bytes>,
}

impl Servers {
    /// None. Allocates nothing.
    pub(crate) fn new(alloc: Global) -> Servers
        ensures { result.addresses.items ≡ [] }
    {
        Servers {
            addresses: Vec::new(alloc),
        }
    }

    fn has(&self, address: &[u8]) -> bool
        ensures { result ≡ list_any (is_address address.now) self.now.addresses.items }
    {
        self.addresses.iter().any(|one| one.as_slice() == address)
    }

    /// Takes note of the server with an address.
    pub(crate) fn note(&mut self, address: &[u8]) -> Result<(), Memory>
        ensures { OnOk result (self.new.addresses.items ≡ with_server address.now self.old.addresses.items) }
    {
        if !self.has(address) {
            let address = Bytes::new(Vec::from_slice(*self.addresses.allocator(), address)?);
            self.addresses.push(address)?;
        }
        Ok(())
    }

    /// The number of the server with an address; 0 where there is none.
    pub(crate) fn number(&self, address: &[u8]) -> u64
        ensures { result ≡ server_number address.now self.now.addresses.items }
    {
        for (index, one) in self.addresses.iter().enumerate() {
            if one.as_slice() == address {
                return index as u64 + 1;
            }
        }
        0
    }

    /// The address of the server of a number; no byte where there is none.
    pub(crate) fn address(&self, number: u64) -> &[u8]
        ensures { result.now ≡ address_of number self.now.addresses.items }
    {
        if number == 0 {
            return &[];
        }
        match self.addresses.get(number as usize - 1) {
            Some(address) => address.as_slice(),
            None => &[],
        }
    }
}
