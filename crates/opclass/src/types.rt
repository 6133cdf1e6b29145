ghost use Rattle.std.specs.Prelude.{◌≡◌, true, false};
ghost use Rattle.opclass.specs.Types.{row};

/// The types that a column of the table may have.
#[derive(Clone, Copy, Debug, PartialEq, Eq)]
pub enum ColType {
    Bool,
    Int2,
    Int4,
    Int8,
    Oid,
    Date,
    Timestamp,
    Timestamptz,
    Time,
    Uuid,
    Text,
    Varchar,
    Bytea,
    Float4,
    Float8,
    Numeric,
    Bpchar,
    Name,
    Interval,
    Json,
    Jsonb,
    Int4Array,
    Int8Array,
    TextArray,
}

/// How many bytes a value of a type takes (`typlen`).
#[derive(Clone, Copy, Debug, PartialEq, Eq)]
pub enum Width {
    Fixed(u8),
    Variable,
}

/// What a value of a type is, as its bytes are read and compared.
#[derive(Clone, Copy, Debug, PartialEq, Eq)]
pub enum Form {
    /// A byte that is 0 or 1.
    Truth,
    /// A number in two's complement, as wide as the type.
    Signed,
    /// A number without a sign, as wide as the type.
    Unsigned,
    /// Bytes as they stand, without the header of a variable value.
    Bytes,
    /// An array whose elements are of this type.
    Array(ColType),
}

/// The index methods that take a type as a key (`pg_opclass.dat`).
#[derive(Clone, Copy, Debug, PartialEq, Eq)]
pub enum KeyUse {
    Never,
    BTree,
    BTreeAndBrin,
    Gin,
}

/// What a type is compared with in WHERE.
#[derive(Clone, Copy, Debug, PartialEq, Eq)]
pub enum Compared {
    /// Nothing.
    Never,
    /// TRUE and FALSE, by `=` and `<>` alone.
    WithTruth,
    /// A number.
    WithNumber,
    /// A string.
    WithText,
}

/// An index method.
#[derive(Clone, Copy, Debug, PartialEq, Eq)]
pub enum Method {
    BTree,
    Brin,
    Gin,
}

/// What is known of a type (`pg_type.dat`).
#[derive(Clone, Copy, Debug, PartialEq, Eq)]
pub struct TypeFacts {
    /// The type's number in the catalog, which arrays name their elements' type by.
    pub oid: u32,
    pub width: Width,
    /// The multiple of bytes at which a value stands (`typalign`).
    pub alignment: u8,
    pub form: Form,
    pub key_use: KeyUse,
    pub compared: Compared,
    /// Whether COLLATE may stand behind the type (`typcollation`).
    pub collated: bool,
}

impl ColType {
    ghost use Rattle.std.specs.Prelude.{◌≡◌};
    ghost use Rattle.opclass.specs.Types.{facts_of};

    /// What is known of the type. Whatever is asked about a type is asked of this table.
    pub fn facts(self) -> TypeFacts
        ensures { result ≡ facts_of self }
    {
        use Compared::{WithNumber, WithText, WithTruth};
        use Form::{Array, Bytes, Signed, Truth, Unsigned};
        use KeyUse::{BTree, BTreeAndBrin, Gin, Never};

        match self {
            ColType::Bool => fixed(16, 1, 1, Truth, BTree, WithTruth),
            ColType::Int2 => fixed(21, 2, 2, Signed, BTreeAndBrin, WithNumber),
            ColType::Int4 => fixed(23, 4, 4, Signed, BTreeAndBrin, WithNumber),
            ColType::Int8 => fixed(20, 8, 8, Signed, BTreeAndBrin, WithNumber),
            ColType::Oid => fixed(26, 4, 4, Unsigned, BTreeAndBrin, WithNumber),
            ColType::Date => fixed(1082, 4, 4, Signed, BTreeAndBrin, Compared::Never),
            ColType::Timestamp => fixed(1114, 8, 8, Signed, BTreeAndBrin, Compared::Never),
            ColType::Timestamptz => fixed(1184, 8, 8, Signed, BTreeAndBrin, Compared::Never),
            ColType::Time => fixed(1083, 8, 8, Signed, BTreeAndBrin, Compared::Never),
            ColType::Uuid => fixed(2950, 16, 1, Bytes, BTreeAndBrin, Compared::Never),
            ColType::Text => collated(variable(25, 4, Bytes, BTreeAndBrin, WithText)),
            ColType::Varchar => collated(variable(1043, 4, Bytes, BTreeAndBrin, WithText)),
            ColType::Bytea => variable(17, 4, Bytes, BTreeAndBrin, Compared::Never),
            ColType::Float4 => fixed(700, 4, 4, Bytes, Never, Compared::Never),
            ColType::Float8 => fixed(701, 8, 8, Bytes, Never, Compared::Never),
            ColType::Numeric => variable(1700, 4, Bytes, Never, Compared::Never),
            ColType::Bpchar => collated(variable(1042, 4, Bytes, Never, Compared::Never)),
            ColType::Name => collated(fixed(19, 64, 1, Bytes, Never, Compared::Never)),
            ColType::Interval => fixed(1186, 16, 8, Bytes, Never, Compared::Never),
            ColType::Json => variable(114, 4, Bytes, Never, Compared::Never),
            ColType::Jsonb => variable(3802, 4, Bytes, Never, Compared::Never),
            ColType::Int4Array => variable(1007, 4, Array(ColType::Int4), Gin, Compared::Never),
            ColType::Int8Array => variable(1016, 8, Array(ColType::Int8), Gin, Compared::Never),
            ColType::TextArray => collated(variable(
                1009,
                4,
                Array(ColType::Text),
                Gin,
                Compared::Never,
            )),
        }
    }
}

impl Method {
    ghost use Rattle.std.specs.Prelude.{◌≡◌};
    ghost use Rattle.opclass.specs.Types.{facts_of, takes_key};

    /// Whether a column of this type may be a key of an index of this method.
    pub fn takes(self, kind: ColType) -> bool
        ensures { result ≡ takes_key self (facts_of kind).key_use }
    {
        match kind.facts().key_use {
            KeyUse::Never => false,
            KeyUse::BTree => self == Method::BTree,
            KeyUse::BTreeAndBrin => self != Method::Gin,
            KeyUse::Gin => self == Method::Gin,
        }
    }
}

// A row of the table of a type whose values all have one width.
fn fixed(
    oid: u32,
    width: u8,
    alignment: u8,
    form: Form,
    key_use: KeyUse,
    compared: Compared,
) -> TypeFacts
    ensures { result ≡ row false oid (Width.Fixed width) alignment form key_use compared }
{
    TypeFacts {
        oid,
        width: Width::Fixed(width),
        alignment,
        form,
        key_use,
        compared,
        collated: false,
    }
}

// A row of the table of a type whose values have a header with their length.
fn variable(oid: u32, alignment: u8, form: Form, key_use: KeyUse, compared: Compared) -> TypeFacts
    ensures { result ≡ row false oid Width.Variable alignment form key_use compared }
{
    TypeFacts {
        oid,
        width: Width::Variable,
        alignment,
        form,
        key_use,
        compared,
        collated: false,
    }
}

// The same row for a type with a collation.
fn collated(facts: TypeFacts) -> TypeFacts
    ensures { result ≡ record facts { collated = true } }
{
    TypeFacts {
        collated: true,
        ..facts
    }
}
