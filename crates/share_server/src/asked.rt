ghost use Rattle.std.specs.Prelude.{◌≡◌, [], OnOk};
ghost use Rattle.lease_model.specs.values.Tables.{put};
ghost use Rattle.share_server.specs.Requests.{file_request_of, requests_of, with_last};
ghost use Rattle.share_server.specs.Table.{no_request, requests_in};

use crate::values::request::FileRequest;
use lease_state::{FileId, Memory};
use std::alloc::Global;
use std::collections::BTreeMap;
use std::marker::Model;

/// The requests that weren't answered yet, by the tags under which the manager was asked.
#[derive(Debug, Drop)]
pub struct Asked {
    /// The one asked last, until another one is: most are answered before that, and never come into the map.
    last: Option<(u64, FileRequest)>,
    by_tag: BTreeMap<u64, FileRequest>,
}

impl Model for Asked {
    ghost use Rattle.std.specs.Prelude.{ℕ, List};
    ghost use Rattle.lease_model.specs.messages.Requests.{FileRequest};
    ghost use Rattle.share_server.specs.Requests.{requests_of, with_last};

    ghost Value = { List (ℕ × FileRequest) };

    ghost view = { λ asked. with_last asked.last (requests_of asked.by_tag) };
}

impl Asked {
    /// None. Allocates nothing.
    pub fn new(alloc: Global) -> Asked
        ensures { result ≡ [] }
    {
        Asked {
            last: None,
            by_tag: BTreeMap::new(alloc),
        }
    }

    /// The request was asked under the tag.
    ///
    /// # Errors
    ///
    /// `Memory` where there is none left for it.
    pub fn put(&mut self, tag: u64, request: FileRequest) -> Result<(), Memory>
        ensures { OnOk result (requests_in self.new ≡ put (requests_in self.old) tag (file_request_of request)) }
    {
        let last = self.last.take();
        file_away(&mut self.by_tag, last)?;
        self.last = Some((tag, request));
        Ok(())
    }

    /// Takes out what was asked under the tag. Where nothing was, that is to close no open.
    pub fn take(&mut self, tag: u64) -> FileRequest
        ensures taken { file_request_of result ≡ requests_in self.old tag }
        ensures left { requests_in self.new ≡ put (requests_in self.old) tag no_request }
    {
        let found = taken_from(&mut self.by_tag, tag);
        match self.last.take() {
            Some((last, request)) => {
                if last == tag {
                    return request;
                }
                self.last = Some((last, request));
                found
            }
            None => found,
        }
    }
}

// The request comes into the map.
fn file_away(
    by_tag: &mut BTreeMap<u64, FileRequest>,
    last: Option<(u64, FileRequest)>,
) -> Result<(), Memory>
    ensures { OnOk result (requests_in (requests_of by_tag.new) ≡ requests_in (with_last last (requests_of by_tag.old))) }
{
    match last {
        Some((tag, request)) => {
            by_tag.insert(tag, request)?;
            Ok(())
        }
        None => Ok(()),
    }
}

// What is taken out of the map; to close no open where nothing is there.
fn taken_from(by_tag: &mut BTreeMap<u64, FileRequest>, tag: u64) -> FileRequest
    ensures taken { file_request_of result ≡ requests_in (requests_of by_tag.old) tag }
    ensures left { requests_in (requests_of by_tag.new) ≡ put (requests_in (requests_of by_tag.old)) tag no_request }
{
    if let Some(request) = by_tag.remove(&tag) {
        return request;
    }
    FileRequest::Close { fid: FileId(0) }
}
