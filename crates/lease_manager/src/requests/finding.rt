ghost use Rattle.std.specs.Prelude.{◌≡◌, [], IfOk, IfSome, if◌then◌else◌};
ghost use Rattle.std.specs.List.{list_all};
ghost use Rattle.std.specs.Option.{option_map};
ghost use Rattle.lease_model.specs.server.Findings as rules;
ghost use Rattle.lease_model.specs.server.Ready as ready;
ghost use Rattle.lease_model.specs.server.State.{has_file};
ghost use Rattle.lease_model.specs.server.Wants.{all_wants};
ghost use Rattle.lease_manager.specs.Findings.{look_of, looked, file_found};
ghost use Rattle.lease_model.specs.values.Lists.{is_empty};
ghost use Rattle.lease_manager.specs.OneFile.{IsAbout, IsOpenOn};
ghost use Rattle.lease_manager.specs.Requests.{request_like, patch_like, lease_asked};
ghost use Rattle.lease_manager.specs.Table.{server_of};

use crate::tables::Tables;
use crate::values::key::LeaseName;
use crate::values::number::{ClientNo, FileNo};
use crate::values::request::{Ask, CreateAsk, key_asked};
use crate::values::want::{Want, Wish};
use lease_state::{Access, FileId, Memory, Share, Status};

/// What a look at a request finds.
#[derive(Debug, Drop)]
pub enum Finding {
    /// It is refused.
    Fails(Status),
    /// It can be answered; with the file that it is about.
    Ready(FileNo),
    /// It needs these leases to be broken.
    Needs(Vec<Want>),
}

impl Tables {
    /// What a look at the request finds.
    ///
    /// # Errors
    ///
    /// `Memory` where there is none left for the list of leases.
    #[tactic(auto, unfolding(lease_model::specs::server::Findings::finding))]
    pub fn finding(&self, client: ClientNo, ask: Ask) -> Result<Finding, Memory>
        ensures look { IfOk result (λ found. look_of found
            ≡ looked (λ wants. ready.is_ready (request_like ask) (server_of self.now).leases wants)
            (rules.finding (server_of self.now) client.0 (request_like ask))) }
        ensures about { IfOk result (λ found. IfSome (file_found found)
            (λ file. IsAbout (server_of self.now) file client.0 (request_like ask))) }
    {
        match ask {
            Ask::Create {
                file,
                access,
                share,
                ask,
            } => self.create_finding(client, file, access, share, ask),
            Ask::Read { fid } => Ok(self.read_finding(client, fid)),
            Ask::Write { fid, fits } => self.write_finding(client, fid, fits),
            Ask::Close { fid } => Ok(self.close_finding(client, fid)),
        }
    }

    fn read_finding(&self, client: ClientNo, fid: FileId) -> Finding
        ensures look { look_of result ≡ looked (λ wants. is_empty wants)
            (rules.by_open (rules.connected_open (server_of self.now) client.0 fid.0) rules.read_finding) }
        ensures about { IfSome (file_found result) (λ file. IsOpenOn (server_of self.now) file client.0 fid.0) }
    {
        match self.connected_open(client, fid) {
            Some(one) => {
                if one.access.reads() {
                    Finding::Ready(one.file)
                } else {
                    Finding::Fails(Status::AccessDenied)
                }
            }
            None => Finding::Fails(Status::FileClosed),
        }
    }

    fn close_finding(&self, client: ClientNo, fid: FileId) -> Finding
        ensures look { look_of result ≡ looked (λ wants. is_empty wants)
            (rules.by_open (rules.connected_open (server_of self.now) client.0 fid.0) (λ one. rules.Finding.Needs [])) }
        ensures about { IfSome (file_found result) (λ file. IsOpenOn (server_of self.now) file client.0 fid.0) }
    {
        match self.connected_open(client, fid) {
            Some(one) => Finding::Ready(one.file),
            None => Finding::Fails(Status::FileClosed),
        }
    }

    #[tactic(auto)]
    fn write_finding(&self, client: ClientNo, fid: FileId, fits: bool) -> Result<Finding, Memory>
        ensures look { IfOk result (λ found. look_of found ≡ looked
            (λ wants. list_all (λ want. ready.breaks_to_none ((server_of self.now).leases want.key)) wants)
            (rules.by_open (rules.connected_open (server_of self.now) client.0 fid.0)
            (λ one. rules.write_finding (server_of self.now) one (patch_like fits)))) }
        ensures about { IfOk result (λ found. IfSome (file_found found)
            (λ file. IsOpenOn (server_of self.now) file client.0 fid.0)) }
    {
        match self.connected_open(client, fid) {
            None => Ok(Finding::Fails(Status::FileClosed)),
            Some(one) => {
                if !one.access.writes() {
                    return Ok(Finding::Fails(Status::AccessDenied));
                }
                if !fits {
                    return Ok(Finding::Fails(Status::InvalidParameter));
                }
                let needs = self.write_needs(one.key(), one.file)?;
                Ok(needs)
            }
        }
    }

    // What a write needs under this key, or under none: nothing where each lease of another key on the
    // file that holds something is breaking to nothing.
    // docs/DECISIONS.md: "A write whose wanted keys already break to none".
    fn write_needs(&self, own: Option<LeaseName>, file: FileNo) -> Result<Finding, Memory>
        ensures look { IfOk result (λ found. look_of found ≡ looked
            (λ wants. list_all (λ want. ready.breaks_to_none ((server_of self.now).leases want.key)) wants)
            (rules.Finding.Needs (all_wants (server_of self.now) own file.0))) }
        ensures file { IfOk result (λ found. IfSome (file_found found) (λ other. other ≡ file.0)) }
    {
        if !self.is_hindered(own, file) {
            return Ok(Finding::Ready(file));
        }
        Ok(Finding::Needs(self.wants(Wish::Nothing, own, file)?))
    }

    // A create of a file that is there is looked at as a reconnect, or as an open.
    fn create_finding(
        &self,
        client: ClientNo,
        file: FileNo,
        access: Access,
        share: Share,
        ask: CreateAsk,
    ) -> Result<Finding, Memory>
        ensures look { IfOk result (λ found. look_of found ≡ looked (λ wants. is_empty wants)
            (if has_file (server_of self.now) file.0
            then rules.asked_finding (server_of self.now) client.0 file.0 access share
            (option_map lease_asked ask.lease) (option_map (λ file_id. file_id.0) ask.reconnect)
            else rules.Finding.Fails Status.ObjectNameNotFound)) }
        ensures file { IfOk result (λ found. IfSome (file_found found) (λ other. other ≡ file.0)) }
    {
        if !self.has_file(file) {
            return Ok(Finding::Fails(Status::ObjectNameNotFound));
        }
        let own = key_asked(client, ask.lease);
        match ask.reconnect {
            Some(fid) => Ok(self.reconnect_finding(client, file, own, fid)),
            None => self.open_finding(own, file, access, share),
        }
    }

    // A reconnect fails in one way whatever is wrong (profile).
    #[tactic(auto)]
    fn reconnect_finding(
        &self,
        client: ClientNo,
        file: FileNo,
        own: Option<LeaseName>,
        fid: FileId,
    ) -> Finding
        ensures look { look_of result ≡ looked (λ wants. is_empty wants)
            (rules.reconnect_finding (server_of self.now) client.0 file.0 own fid.0) }
        ensures file { IfSome (file_found result) (λ other. other ≡ file.0) }
    {
        if self.has_awaiting(client, file, own, fid) {
            Finding::Ready(file)
        } else {
            Finding::Fails(Status::ObjectNameNotFound)
        }
    }

    // First the key's file, then conflicts, then cached writes (profile).
    #[tactic(auto)]
    fn open_finding(
        &self,
        own: Option<LeaseName>,
        file: FileNo,
        access: Access,
        share: Share,
    ) -> Result<Finding, Memory>
        ensures look { IfOk result (λ found. look_of found ≡ looked (λ wants. is_empty wants)
            (rules.create_finding (server_of self.now) own file.0 access share)) }
        ensures file { IfOk result (λ found. IfSome (file_found found) (λ other. other ≡ file.0)) }
    {
        if self.is_leased_elsewhere(own, file) {
            return Ok(Finding::Fails(Status::InvalidParameter));
        }
        if !self.has_conflict_on(file, access, share) {
            return Ok(needing(self.wants(Wish::NoWrites, own, file)?, file));
        }
        let wants = self.wants(Wish::NoHandles { access, share }, own, file)?;
        if has_none(&wants) {
            Ok(Finding::Fails(Status::SharingViolation))
        } else {
            Ok(Finding::Needs(wants))
        }
    }
}

// The request about the file needs these leases to be broken, and can be answered where there are none.
fn needing(needed: Vec<Want>, file: FileNo) -> Finding
    ensures look { look_of result ≡ looked (λ wants. is_empty wants) (rules.Finding.Needs needed.items) }
    ensures file { IfSome (file_found result) (λ other. other ≡ file.0) }
{
    if has_none(&needed) {
        Finding::Ready(file)
    } else {
        Finding::Needs(needed)
    }
}

// Whether nothing is wanted.
fn has_none(wants: &[Want]) -> bool
    ensures { result ≡ is_empty wants.now }
{
    match wants {
        [] => true,
        [..] => false,
    }
}
