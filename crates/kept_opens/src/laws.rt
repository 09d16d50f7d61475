ghost use Rattle.kept_opens.specs.Laws.{SaysTheSame, IsUnique};
ghost use Rattle.kept_opens.specs.Managers.{ExportsAreImported};

/// Laws of the bytes: two lists with the same bytes say the same, so what was written is read back; and no bytes hold two lists.
/// Does nothing.
pub fn kept_laws()
    ensures says_the_same { SaysTheSame }
    ensures unique { IsUnique }
{}

/// What a manager exports is never refused when it is imported under the manager's own rules and files: `import` is then neither
/// `Damaged` nor `Unlawful`. The manager that is made has the opens that would be there were each client cut at the export
/// (MS-SMB2 3.3.7.1), in their order; their leases hold what they held, and the FileId given last is the same. Does nothing.
pub fn exports_are_imported()
    ensures { ExportsAreImported }
{}
