ghost use Rattle.lease_laws.specs.messages.Written.{RequestsAreReadBack, RepliesAreReadBack, RepliesHaveBytes, RequestsHaveBytes};
ghost use Rattle.lease_laws.specs.messages.Bytes.{AcknowledgmentIsFound, NotificationIsFound, NoAcknowledgmentIsFound};
ghost use Rattle.lease_laws.specs.messages.Bytes.{NoNotificationIsFound, ContextsAreFound, FaultyContextsAreNotFound};
ghost use Rattle.lease_laws.specs.messages.Bytes.{WrittenMessagesAreFound, WrittenContextsAreFound};

/// Laws of the map from the bytes of real messages to the values of the model: it finds a break
/// message's value exactly where the bytes begin with one, and the value of contexts exactly where the
/// text holds it; so it finds what was written. Does nothing.
pub fn bytes_laws()
    ensures acknowledgment { AcknowledgmentIsFound }
    ensures no_acknowledgment { NoAcknowledgmentIsFound }
    ensures notification { NotificationIsFound }
    ensures no_notification { NoNotificationIsFound }
    ensures contexts { ContextsAreFound }
    ensures faulty { FaultyContextsAreNotFound }
    ensures written_messages { WrittenMessagesAreFound }
    ensures written_contexts { WrittenContextsAreFound }
{}

/// What has bytes is read back, for every request and every reply that has them: contexts and break messages
/// are there, and keys have 16 bytes. Does nothing.
pub fn written_is_read()
    ensures requests { RequestsAreReadBack }
    ensures replies { RepliesAreReadBack }
{}

/// Every reply of a server has bytes where the keys of its opens and of what it is asked have 16 bytes, and
/// every request of a client machine has where its ClientGuid has 16 and FileIds fit their field. Does nothing.
pub fn machines_write_bytes()
    ensures replies { RepliesHaveBytes }
    ensures requests { RequestsHaveBytes }
{}
