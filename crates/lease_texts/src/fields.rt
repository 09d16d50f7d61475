ghost use Rattle.std.specs.Prelude.{◌≡◌, ◌≢◌, ◌∷◌, [], true, false, MatchResult, MatchBool};
ghost use Rattle.lease_texts.specs.{Fields.ordinal_in, Kinds.begins, Kinds.one, Kinds.word_read, Lines.durable_in};
ghost use Rattle.lease_texts.specs.{Pieces.all_above, Pieces.fields_of, Takes.Takes, declared.kinds.Field.Field};

use crate::fault::LineFault;
use crate::first::{after_word, first_ordinal};
use crate::pieces::split_first;
use crate::status::{GivenStatus, status_in};
use crate::words::{
    access_in, bytes_in, content_in, guid_in, number_in, offset_in, outcome_in, rules_in, share_in,
    sized_in, state_in, way_in,
};
use lease_client::Settlement;
use lease_facts::is;
use lease_state::{
    Access, Bytes, ClientNo, Content, FileId, FileNo, LeaseKey, LeaseState, Rules, Share,
};
use std::alloc::Global;
use std::marker::Model;

/// The fields of a line that are left to be read, with one space between two of them. Fields may be empty, and a
/// line of no bytes has one.
#[derive(Drop)]
pub struct Fields<'a> {
    // The line from the next field on; none where that was the last one.
    rest: Option<&'a [u8]>,
}

impl<'a> Model for Fields<'a> {
    ghost use Rattle.std.specs.Option.{option_copied};
    ghost use Rattle.std.specs.Prelude.{List, ℕ, [], ◌∷◌};
    ghost use Rattle.lease_texts.specs.Pieces.{pieces_behind};

    ghost Value = { List (List ℕ) };

    ghost view = { λ f. pieces_behind 32 ([] ∷ []) (option_copied f.rest) };
}

impl<'a> Fields<'a> {
    /// The fields of a line.
    pub fn of(line: &'a [u8]) -> Fields<'a>
        ensures { result ≡ fields_of line.now }
    {
        Fields { rest: Some(line) }
    }

    /// Whether no field is left.
    #[tactic(auto, using(crate::proofs::Cut::pieces_some))]
    pub fn is_done(&self) -> bool
        ensures { MatchBool result (self.now ≡ []) (self.now ≢ []) }
    {
        match self.rest {
            None => true,
            Some(_) => false,
        }
    }

    /// The next field.
    pub fn next(&mut self) -> Result<&'a [u8], LineFault>
        ensures { MatchResult result (λ field. self.old ≡ field.now ∷ self.new)
            (λ fault. (fault ≡ LineFault.Refused) × (self.old ≡ [])) }
    {
        let Some(rest) = self.rest else {
            return Err(LineFault::Refused);
        };
        let (field, behind) = split_first(b' ', rest);
        self.rest = behind;
        Ok(field)
    }

    /// Takes the next field, where it is this word.
    #[inline(always)]
    pub(crate) fn takes(&mut self, word: &[u8]) -> bool
        requires { all_above 32 word.now ≡ true }
        ensures { MatchBool result (self.old ≡ word.now ∷ self.new)
            ((self.new ≡ self.old) × (begins word.now self.old ≡ false)) }
    {
        let Some(rest) = self.rest else {
            return false;
        };
        let Some(behind) = after_word(rest, word) else {
            return false;
        };
        self.rest = behind;
        true
    }

    /// Refuses a line of which a field is left.
    pub fn end(&self) -> Result<(), LineFault>
        ensures { MatchResult result (λ _. self.now ≡ []) (λ fault. (fault ≡ LineFault.Refused) × (self.now ≢ [])) }
    {
        if self.is_done() {
            Ok(())
        } else {
            Err(LineFault::Refused)
        }
    }

    // A number from 1 to 255.
    #[inline(always)]
    fn ordinal(&mut self) -> Result<u8, LineFault>
        ensures { Takes (one ordinal_in) self.old self.new result }
    {
        let Some(rest) = self.rest else {
            return Err(LineFault::Refused);
        };
        let Some((number, behind)) = first_ordinal(rest) else {
            return Err(LineFault::Refused);
        };
        self.rest = behind;
        Ok(number)
    }

    /// The number of a client, from 1 to 255.
    #[inline(always)]
    #[tactic(auto, using(crate::proofs::Heads::ordinal_taken, crate::proofs::Heads::no_ordinal))]
    pub fn client(&mut self) -> Result<ClientNo, LineFault>
        ensures { Takes (word_read Field.Client) self.old self.new result }
    {
        Ok(ClientNo(self.ordinal()?))
    }

    /// The number of a file, from 1 to 255.
    #[inline(always)]
    #[tactic(auto, using(crate::proofs::Heads::ordinal_taken, crate::proofs::Heads::no_ordinal))]
    pub fn file(&mut self) -> Result<FileNo, LineFault>
        ensures { Takes (word_read Field.File) self.old self.new result }
    {
        Ok(FileNo(self.ordinal()?))
    }

    /// A FileId, of at most 64 bits.
    pub fn file_id(&mut self) -> Result<FileId, LineFault>
        ensures { Takes (word_read Field.FileId) self.old self.new result }
    {
        let number = number_in(self.next()?).ok_or(LineFault::Refused)?;
        Ok(FileId(number))
    }

    /// A decimal number of at most 64 bits, without sign and without leading zeros.
    pub fn number(&mut self) -> Result<u64, LineFault>
        ensures { Takes (word_read Field.Number) self.old self.new result }
    {
        number_in(self.next()?).ok_or(LineFault::Refused)
    }

    /// A number of at most 32 bits.
    pub fn offset(&mut self) -> Result<u32, LineFault>
        ensures { Takes (word_read Field.Offset) self.old self.new result }
    {
        offset_in(self.next()?).ok_or(LineFault::Refused)
    }

    /// Bytes as hexadecimal digits of either case, at least two, or a hyphen for none.
    pub fn bytes(&mut self, alloc: Global) -> Result<Bytes, LineFault>
        ensures { Takes (word_read Field.Bytes) self.old self.new result }
    {
        bytes_in(alloc, self.next()?)
    }

    /// Such bytes, no more than a file holds.
    pub fn file_bytes(&mut self, alloc: Global) -> Result<Bytes, LineFault>
        ensures { Takes (word_read Field.Content) self.old self.new result }
    {
        content_in(alloc, self.next()?)
    }

    /// The content of a file.
    pub fn content(&mut self, alloc: Global) -> Result<Content, LineFault>
        ensures { Takes (word_read Field.Content) self.old self.new result }
    {
        let content = Content::new(self.file_bytes(alloc)?.into_vec());
        content.ok().ok_or(LineFault::Refused)
    }

    /// The letters of a state in the order R, W, H, or `none`. Mostly they end the line.
    #[tactic(auto, using(crate::proofs::Heads::last_state))]
    pub fn state(&mut self) -> Result<LeaseState, LineFault>
        ensures { Takes (word_read Field.State) self.old self.new result }
    {
        if let Some(rest) = self.rest
            && let Some(state) = state_in(rest)
        {
            self.rest = None;
            return Ok(state);
        }
        state_in(self.next()?).ok_or(LineFault::Refused)
    }

    /// What an open may do: `r`, `w` or `rw`.
    pub fn access(&mut self) -> Result<Access, LineFault>
        ensures { Takes (word_read Field.Access) self.old self.new result }
    {
        access_in(self.next()?).ok_or(LineFault::Refused)
    }

    /// The rules of a server: `by-client` or `by-key`, a comma, and `as-free` or `whole`.
    pub fn rules(&mut self) -> Result<Rules, LineFault>
        ensures { Takes (word_read Field.Rules) self.old self.new result }
    {
        rules_in(self.next()?).ok_or(LineFault::Refused)
    }

    /// What an open lets others do: `-`, `r`, `w` or `rw`.
    pub fn share(&mut self) -> Result<Share, LineFault>
        ensures { Takes (word_read Field.Share) self.old self.new result }
    {
        share_in(self.next()?).ok_or(LineFault::Refused)
    }

    /// The way of a write: true where it is buffered.
    pub fn way(&mut self) -> Result<bool, LineFault>
        ensures { Takes (word_read Field.Way) self.old self.new result }
    {
        way_in(self.next()?).ok_or(LineFault::Refused)
    }

    /// What became of a write.
    pub fn outcome(&mut self) -> Result<Settlement, LineFault>
        ensures { Takes (word_read Field.Outcome) self.old self.new result }
    {
        outcome_in(self.next()?).ok_or(LineFault::Refused)
    }

    /// A GUID as 32 digits, hyphenated, in braces or as a URN.
    pub fn guid(&mut self) -> Result<[u8; 16], LineFault>
        ensures { Takes (word_read Field.Guid) self.old self.new result }
    {
        guid_in(self.next()?).ok_or(LineFault::Refused)
    }

    /// An acknowledgment's 36 bytes.
    pub fn message(&mut self) -> Result<[u8; 36], LineFault>
        ensures { Takes (word_read Field.Message) self.old self.new result }
    {
        sized_in(self.next()?).ok_or(LineFault::Refused)
    }

    /// A lease key, as the 32 digits of its bytes.
    pub fn key(&mut self) -> Result<LeaseKey, LineFault>
        ensures { Takes (word_read Field.Key) self.old self.new result }
    {
        let key = sized_in(self.next()?).ok_or(LineFault::Refused)?;
        Ok(LeaseKey(key))
    }

    /// A lease break notification's 44 bytes.
    pub fn notification(&mut self) -> Result<[u8; 44], LineFault>
        ensures { Takes (word_read Field.Notification) self.old self.new result }
    {
        sized_in(self.next()?).ok_or(LineFault::Refused)
    }

    /// A status, by its name or by the eight hexadecimal digits of its number.
    pub fn status(&mut self) -> Result<GivenStatus, LineFault>
        ensures { Takes (word_read Field.Status) self.old self.new result }
    {
        status_in(self.next()?).ok_or(LineFault::Refused)
    }

    /// Whether the word of a durable open is there; no other word may stand in its place.
    pub fn durable(&mut self) -> Result<bool, LineFault>
        ensures { Takes durable_in self.old self.new result }
    {
        if self.is_done() {
            return Ok(false);
        }
        if is(self.next()?, b"durable") {
            Ok(true)
        } else {
            Err(LineFault::Refused)
        }
    }
}
