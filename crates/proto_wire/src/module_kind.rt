//! What can be wrong with a module file.
ghost use Rattle.std.specs.Prelude.{◌≡◌};
ghost use Rattle.proto_wire.specs.Kinds.{module_kind_name};

/// What is wrong with a module file.
#[derive(Clone, Copy, Debug, PartialEq, Eq)]
pub enum ModuleKind {
    /// 1: bytes that are not UTF-8.
    NotUtf8,
    /// 2: a tab among the white space that a line begins with.
    Tab,
    /// 3: a directive.
    Directive,
    /// 4: an anchor or an alias.
    Anchor,
    /// 5: a tag.
    Tag,
    /// 6: a flow collection.
    Flow,
    /// 7: a block scalar.
    BlockScalar,
    /// 8: a quoted scalar that does not end on its line, or has an unknown escape.
    Quote,
    /// 9: the same key again in one mapping.
    DuplicateKey,
    /// 10: a line that fits no open block.
    Indent,
    /// 11: a plain scalar that begins with a reserved character.
    Reserved,
    /// 12: a colon inside a plain value.
    Colon,
    /// 13: too many levels of blocks.
    Depth,
    /// 15: too many bytes.
    TooLong,
    /// 21: a key is missing.
    MissingKey,
    /// 22: a key that the kind does not have.
    UnknownKey,
    /// 23: a value that the key does not take.
    BadValue,
    /// 24: a kind of document that is not supported.
    UnsupportedKind,
    /// 25: an id that stands twice.
    DuplicateId,
    /// 26: a target without an endpoint.
    NoEndpoint,
    /// 27: no ingress.
    NoIngress,
    /// 28: more than a limit allows.
    TooMany,
}

impl ModuleKind {
    /// Its name, as it is printed.
    pub fn name(self) -> &'static str
        ensures { result.now ≡ module_kind_name self }
    {
        match self {
            ModuleKind::NotUtf8 => "NotUtf8",
            ModuleKind::Tab => "Tab",
            ModuleKind::Directive => "Directive",
            ModuleKind::Anchor => "Anchor",
            ModuleKind::Tag => "Tag",
            ModuleKind::Flow => "Flow",
            ModuleKind::BlockScalar => "BlockScalar",
            ModuleKind::Quote => "Quote",
            ModuleKind::DuplicateKey => "DuplicateKey",
            ModuleKind::Indent => "Indent",
            ModuleKind::Reserved => "Reserved",
            ModuleKind::Colon => "Colon",
            ModuleKind::Depth => "Depth",
            ModuleKind::TooLong => "TooLong",
            ModuleKind::MissingKey => "MissingKey",
            ModuleKind::UnknownKey => "UnknownKey",
            ModuleKind::BadValue => "BadValue",
            ModuleKind::UnsupportedKind => "UnsupportedKind",
            ModuleKind::DuplicateId => "DuplicateId",
            ModuleKind::NoEndpoint => "NoEndpoint",
            ModuleKind::NoIngress => "NoIngress",
            ModuleKind::TooMany => "TooMany",
        }
    }
}
