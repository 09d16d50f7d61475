use super::*;
use capture_wire::{DurableReconnectV2, DurableRequestV2, DurableResponseV2, Guid, Smb2FileId};
use lease_state::{FileId, LeaseKey, LeaseState, Memory};
use lease_wire::{CreateAnswer, CreateAsk, Notification};
use lease_wire_v2::{
    CreateAnswerV2, CreateAskV2, DurableAnswer, DurableAsk, LeaseAnswer, LeaseAsk, NotificationV2,
    Reconnect, SecondVersion,
};
use std::test::Fail;

const KEY: LeaseKey = LeaseKey([7; 16]);

const PARENT: LeaseKey = LeaseKey([9; 16]);

const GUID: Guid = Guid([3; 16]);

const OTHER_GUID: Guid = Guid([4; 16]);

fn plain_ask(state: u32) -> CreateAsk {
    CreateAsk {
        lease: Some((KEY, LeaseState::from_wire(state))),
        durable: false,
        reconnect: None,
    }
}

// What is asked for all that a lease can have, with this epoch.
fn asked_with(epoch: u16) -> CreateAskV2 {
    let lease = LeaseAsk {
        key: KEY,
        state: LeaseState::from_wire(7),
        second: Some(SecondVersion {
            parent: Some(PARENT),
            epoch,
        }),
    };
    CreateAskV2 {
        lease: Some(lease),
        durable: None,
        reconnect: None,
    }
}

fn ask(versions: &ClientVersions) -> CreateAskV2 {
    versions.ask(&plain_ask(7), Some(PARENT), GUID)
}

fn answer_with(epoch: u16, state: u32, breaking: bool) -> CreateAnswerV2 {
    let lease = LeaseAnswer {
        key: KEY,
        state: LeaseState::from_wire(state),
        breaking,
        second: Some(SecondVersion {
            parent: None,
            epoch,
        }),
    };
    CreateAnswerV2 {
        lease: Some(lease),
        durable: None,
    }
}

fn given(state: u32, breaking: bool) -> CreateAnswer {
    CreateAnswer {
        lease: Some((KEY, LeaseState::from_wire(state), breaking)),
        durable: false,
    }
}

fn answered(
    versions: &mut ClientVersions,
    answer: &CreateAnswerV2,
) -> Result<CreateAnswer, Memory> {
    versions.answered(FileId(1), GUID, answer)
}

fn notification(lowered: u32) -> Notification {
    Notification {
        ack_required: true,
        key: KEY,
        current: LeaseState::from_wire(7),
        new: LeaseState::from_wire(lowered),
    }
}

fn notice(new_epoch: u16, lowered: u32) -> NotificationV2 {
    NotificationV2 {
        notification: notification(lowered),
        new_epoch,
    }
}

#[test]
fn what_comes_in_order_is_given(rt: HostRuntime) -> Result<(), Fail> {
    let mut versions = ClientVersions::new(rt.alloc());
    assert_eq!(rt; ask(&versions), asked_with(0));
    assert_eq!(rt;
        answered(&mut versions, &answer_with(1, 7, false))?,
        given(7, false)
    );
    assert_eq!(rt; ask(&versions), asked_with(1));
    assert_eq!(rt; versions.noticed(&notice(2, 3))?, Some(notification(3)));
    assert_eq!(rt; ask(&versions), asked_with(2));
    assert_eq!(rt;
        answered(&mut versions, &answer_with(3, 7, false))?,
        given(7, false)
    );
    assert_eq!(rt;
        answered(&mut versions, &answer_with(3, 7, false))?,
        given(7, false)
    );
    Ok(())
}

// A server may begin a lease anew, below the epochs that it told before.
#[test]
fn over_one_connection_all_is_given(rt: HostRuntime) -> Result<(), Fail> {
    let mut versions = ClientVersions::new(rt.alloc());
    assert_eq!(rt; versions.noticed_in_order(&notice(0, 3))?, notification(3));
    assert_eq!(rt; ask(&versions), asked_with(0));
    assert_eq!(rt; versions.noticed_in_order(&notice(9, 3))?, notification(3));
    let granted = answer_with(6, 7, false);
    assert_eq!(rt;
        versions.answered_in_order(FileId(1), GUID, &granted)?,
        given(7, false)
    );
    assert_eq!(rt; ask(&versions), asked_with(6));
    assert_eq!(rt; versions.noticed_in_order(&notice(5, 3))?, notification(3));
    assert_eq!(rt; versions.noticed(&notice(4, 1))?, None);
    assert_eq!(rt; ask(&versions), asked_with(5));
    Ok(())
}

#[test]
fn a_late_answer_gives_the_newest_state(rt: HostRuntime) -> Result<(), Fail> {
    let mut versions = ClientVersions::new(rt.alloc());
    assert_eq!(rt; versions.noticed(&notice(2, 3))?, Some(notification(3)));
    assert_eq!(rt;
        answered(&mut versions, &answer_with(1, 7, false))?,
        given(3, false)
    );
    assert_eq!(rt; ask(&versions), asked_with(2));
    Ok(())
}

#[test]
fn a_late_notice_is_dropped(rt: HostRuntime) -> Result<(), Fail> {
    let mut versions = ClientVersions::new(rt.alloc());
    assert_eq!(rt;
        answered(&mut versions, &answer_with(5, 7, false))?,
        given(7, false)
    );
    assert_eq!(rt; versions.noticed(&notice(4, 1))?, None);
    assert_eq!(rt; versions.noticed(&notice(5, 3))?, Some(notification(3)));
    assert_eq!(rt; versions.noticed(&notice(5, 3))?, None);
    assert_eq!(rt; versions.noticed(&notice(5, 1))?, Some(notification(1)));
    assert_eq!(rt; ask(&versions), asked_with(5));
    Ok(())
}

#[test]
fn an_answer_in_a_break_overtakes_its_notice(rt: HostRuntime) -> Result<(), Fail> {
    let mut versions = ClientVersions::new(rt.alloc());
    assert_eq!(rt;
        answered(&mut versions, &answer_with(5, 7, false))?,
        given(7, false)
    );
    assert_eq!(rt;
        answered(&mut versions, &answer_with(6, 7, true))?,
        given(7, true)
    );
    assert_eq!(rt; ask(&versions), asked_with(6));
    assert_eq!(rt; versions.noticed(&notice(6, 3))?, Some(notification(3)));
    Ok(())
}

// The answer that granted epoch 2 was lost with its connection.
#[test]
fn the_notice_after_an_answer_in_a_break_is_passed_on(rt: HostRuntime) -> Result<(), Fail> {
    let mut versions = ClientVersions::new(rt.alloc());
    assert_eq!(rt;
        answered(&mut versions, &answer_with(1, 1, false))?,
        given(1, false)
    );
    assert_eq!(rt;
        answered(&mut versions, &answer_with(3, 7, true))?,
        given(7, true)
    );
    assert_eq!(rt; ask(&versions), asked_with(3));
    assert_eq!(rt; versions.noticed(&notice(3, 3))?, Some(notification(3)));
    assert_eq!(rt; ask(&versions), asked_with(3));
    Ok(())
}

#[test]
fn an_answer_in_a_break_after_its_notice_is_not_taken(rt: HostRuntime) -> Result<(), Fail> {
    let mut versions = ClientVersions::new(rt.alloc());
    assert_eq!(rt; versions.noticed(&notice(3, 3))?, Some(notification(3)));
    assert_eq!(rt;
        answered(&mut versions, &answer_with(3, 7, true))?,
        given(7, true)
    );
    assert_eq!(rt; versions.noticed(&notice(3, 3))?, None);
    assert_eq!(rt;
        answered(&mut versions, &answer_with(2, 7, true))?,
        given(7, true)
    );
    assert_eq!(rt; versions.noticed(&notice(3, 3))?, None);
    assert_eq!(rt; ask(&versions), asked_with(3));
    Ok(())
}

#[test]
fn epoch_0_follows_on_65535(rt: HostRuntime) -> Result<(), Fail> {
    let mut versions = ClientVersions::new(rt.alloc());
    assert_eq!(rt;
        answered(&mut versions, &answer_with(65_535, 1, false))?,
        given(1, false)
    );
    assert_eq!(rt;
        answered(&mut versions, &answer_with(0, 7, false))?,
        given(7, false)
    );
    assert_eq!(rt; versions.noticed(&notice(65_535, 0))?, None);
    assert_eq!(rt; ask(&versions), asked_with(0));
    Ok(())
}

#[test]
fn the_first_version_passes(rt: HostRuntime) -> Result<(), Fail> {
    let mut versions = ClientVersions::new(rt.alloc());
    let lease = LeaseAnswer {
        key: KEY,
        state: LeaseState::from_wire(7),
        breaking: false,
        second: None,
    };
    let answer = CreateAnswerV2 {
        lease: Some(lease),
        durable: Some(DurableAnswer::First),
    };
    let given = CreateAnswer {
        lease: Some((KEY, LeaseState::from_wire(7), false)),
        durable: true,
    };
    assert_eq!(rt; answered(&mut versions, &answer)?, given);
    assert_eq!(rt; versions.noticed(&notice(0, 3))?, Some(notification(3)));
    assert_eq!(rt; versions.noticed(&notice(0, 3))?, Some(notification(3)));
    assert_eq!(rt; ask(&versions), asked_with(0));
    Ok(())
}

fn durable_ask(reconnect: Option<FileId>) -> CreateAsk {
    CreateAsk {
        lease: None,
        durable: reconnect.is_none(),
        reconnect,
    }
}

fn again(reconnect: Reconnect) -> CreateAskV2 {
    CreateAskV2 {
        lease: None,
        durable: None,
        reconnect: Some(reconnect),
    }
}

#[test]
fn an_open_is_connected_again_under_its_guid(rt: HostRuntime) -> Result<(), Fail> {
    let mut versions = ClientVersions::new(rt.alloc());
    let durable = DurableRequestV2 {
        timeout: 0,
        persistent: false,
        create_guid: GUID,
    };
    let asked = CreateAskV2 {
        lease: None,
        durable: Some(DurableAsk::Second(durable)),
        reconnect: None,
    };
    assert_eq!(rt; versions.ask(&durable_ask(None), None, GUID), asked);
    let granted = DurableResponseV2 {
        timeout: 60_000,
        persistent: false,
    };
    let answer = CreateAnswerV2 {
        lease: None,
        durable: Some(DurableAnswer::Second(granted)),
    };
    let given = CreateAnswer {
        lease: None,
        durable: true,
    };
    assert_eq!(rt; versions.answered(FileId(5), GUID, &answer)?, given);
    let second = DurableReconnectV2 {
        file_id: Smb2FileId {
            persistent: 5,
            volatile: 5,
        },
        create_guid: GUID,
        persistent: false,
    };
    assert_eq!(rt;
        versions.ask(&durable_ask(Some(FileId(5))), None, OTHER_GUID),
        again(Reconnect::Second(second))
    );
    versions.closed(FileId(5));
    assert_eq!(rt;
        versions.ask(&durable_ask(Some(FileId(5))), None, OTHER_GUID),
        again(Reconnect::First(FileId(5)))
    );
    Ok(())
}
