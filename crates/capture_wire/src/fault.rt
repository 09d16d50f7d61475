use thiserror::Error;

/// Why bytes are refused. As text a fault is a few words of English.
#[derive(Clone, Copy, Debug, PartialEq, Eq, Error)]
pub enum MessageFault {
    /// There are fewer bytes than the fixed part takes, which begins with the header in a message.
    #[error("too few bytes")]
    Short,
    /// ProtocolId is not that of an SMB2 message.
    #[error("no SMB2 message")]
    WrongProtocol,
    /// StructureSize is that of another message.
    #[error("the StructureSize of another message")]
    WrongSize,
    /// The data of a create context have another length than their structure.
    #[error("data of another length")]
    WrongLength,
    /// A name or another part is not after the fixed part and within the message.
    #[error("a part outside the message")]
    Outside,
}
