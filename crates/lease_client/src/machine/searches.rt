ghost use Rattle.std.specs.Prelude.{◌≡◌, true, IfSome};
ghost use Rattle.std.specs.Option.{option_map};
ghost use Rattle.lease_model.specs.client.State.{knows_file};
ghost use Rattle.lease_model.specs.client.Taken.{file_where, has_sent, is_key_of};
ghost use Rattle.lease_client.specs.Known.{client_of};
ghost use Rattle.lease_client.specs.Searches.{is_read_under};

use crate::machine::Machine;
use lease_state::{FileId, FileNo, LeaseKey};

impl Machine {
    /// The file whose open has this FileId and waits for a Read.
    // docs/DECISIONS.md: "The file that a read reply is about".
    pub fn file_read_under(&self, file_id: FileId) -> Option<FileNo>
        ensures found { option_map (λ file. file.0) result
            ≡ file_where (client_of self.now) (is_read_under (client_of self.now) file_id.0) }
        ensures known { IfSome result (λ file. knows_file (client_of self.now) file.0 ≡ true) }
    {
        for index in 0..self.files() {
            let file = FileNo(index + 1);
            if self.is_read_under(file, file_id) {
                return Some(file);
            }
        }
        None
    }

    /// The file with a sent write of this number that isn't answered.
    pub fn file_with_sent(&self, number: u64) -> Option<FileNo>
        ensures found { option_map (λ file. file.0) result
            ≡ file_where (client_of self.now) (has_sent (client_of self.now) number) }
        ensures known { IfSome result (λ file. knows_file (client_of self.now) file.0 ≡ true) }
    {
        for index in 0..self.files() {
            let file = FileNo(index + 1);
            if self.has_sent(file, number) {
                return Some(file);
            }
        }
        None
    }

    /// The file of this key.
    pub fn file_of_key(&self, key: LeaseKey) -> Option<FileNo>
        ensures found { option_map (λ file. file.0) result
            ≡ file_where (client_of self.now) (is_key_of (client_of self.now) key.0) }
        ensures known { IfSome result (λ file. knows_file (client_of self.now) file.0 ≡ true) }
    {
        for index in 0..self.files() {
            let file = FileNo(index + 1);
            if self.is_key_of(file, key) {
                return Some(file);
            }
        }
        None
    }

    fn is_key_of(&self, file: FileNo, key: LeaseKey) -> bool
        ensures { result ≡ is_key_of (client_of self.now) key.0 file.0 }
    {
        self.key(file) == key
    }
}
