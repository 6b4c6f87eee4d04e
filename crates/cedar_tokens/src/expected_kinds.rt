// Kinds of tokens that were expected.
ghost use Rattle.std.specs.Prelude.{◌≡◌, ◌||◌, IfOk, map, string_bytes};
ghost use Rattle.cedar_tokens.specs.Kinds.{meets, named, names_in, names_of};

use std::alloc::{AllocError, Global};

/// A set of kinds of tokens, as a parser expects them. A constant in it is one kind, or a group of them.
#[derive(Clone, Copy, Debug, PartialEq, Eq)]
pub struct Kinds(u64);

impl Kinds {
    /// No kind.
    pub const NONE: Kinds = Kinds(0);
    /// `"("`
    pub const LEFT_PAREN: Kinds = Kinds(0x1);
    /// `")"`
    pub const RIGHT_PAREN: Kinds = Kinds(0x2);
    /// `"["`
    pub const LEFT_BRACKET: Kinds = Kinds(0x4);
    /// `"]"`
    pub const RIGHT_BRACKET: Kinds = Kinds(0x8);
    /// `"{"`
    pub const LEFT_BRACE: Kinds = Kinds(0x10);
    /// `"}"`
    pub const RIGHT_BRACE: Kinds = Kinds(0x20);
    /// `","`
    pub const COMMA: Kinds = Kinds(0x40);
    /// `";"`
    pub const SEMICOLON: Kinds = Kinds(0x80);
    /// `":"`
    pub const COLON: Kinds = Kinds(0x100);
    /// `"::"`
    pub const COLON_COLON: Kinds = Kinds(0x200);
    /// `"."`
    pub const DOT: Kinds = Kinds(0x400);
    /// `"@"`
    pub const AT: Kinds = Kinds(0x800);
    /// `"&&"`
    pub const AND_AND: Kinds = Kinds(0x1000);
    /// `"||"`
    pub const OR_OR: Kinds = Kinds(0x2000);
    /// `"=="`
    pub const EQUAL_EQUAL: Kinds = Kinds(0x4000);
    /// `"!="`
    pub const NOT_EQUAL: Kinds = Kinds(0x8000);
    /// `"<"`
    pub const LESS: Kinds = Kinds(0x10000);
    /// `"<="`
    pub const LESS_EQUAL: Kinds = Kinds(0x20000);
    /// `">"`
    pub const GREATER: Kinds = Kinds(0x40000);
    /// `">="`
    pub const GREATER_EQUAL: Kinds = Kinds(0x80000);
    /// `"+"`
    pub const PLUS: Kinds = Kinds(0x100000);
    /// `"-"`
    pub const MINUS: Kinds = Kinds(0x200000);
    /// `"*"`
    pub const STAR: Kinds = Kinds(0x400000);
    /// `"!"`
    pub const BANG: Kinds = Kinds(0x800000);
    /// `"/"`
    pub const SLASH: Kinds = Kinds(0x1000000);
    /// `"%"`
    pub const PERCENT: Kinds = Kinds(0x2000000);
    /// `"="`
    pub const EQUAL: Kinds = Kinds(0x4000000);
    /// `TRUE`
    pub const TRUE: Kinds = Kinds(0x8000000);
    /// `FALSE`
    pub const FALSE: Kinds = Kinds(0x10000000);
    /// `IF`
    pub const IF: Kinds = Kinds(0x20000000);
    /// `THEN`
    pub const THEN: Kinds = Kinds(0x40000000);
    /// `ELSE`
    pub const ELSE: Kinds = Kinds(0x80000000);
    /// `IN`
    pub const IN: Kinds = Kinds(0x100000000);
    /// `LIKE`
    pub const LIKE: Kinds = Kinds(0x200000000);
    /// `HAS`
    pub const HAS: Kinds = Kinds(0x400000000);
    /// `IS`
    pub const IS: Kinds = Kinds(0x800000000);
    /// `PERMIT`
    pub const PERMIT: Kinds = Kinds(0x1000000000);
    /// `FORBID`
    pub const FORBID: Kinds = Kinds(0x2000000000);
    /// `WHEN`
    pub const WHEN: Kinds = Kinds(0x4000000000);
    /// `UNLESS`
    pub const UNLESS: Kinds = Kinds(0x8000000000);
    /// `PRINCIPAL`
    pub const PRINCIPAL: Kinds = Kinds(0x10000000000);
    /// `ACTION`
    pub const ACTION: Kinds = Kinds(0x20000000000);
    /// `RESOURCE`
    pub const RESOURCE: Kinds = Kinds(0x40000000000);
    /// `CONTEXT`
    pub const CONTEXT: Kinds = Kinds(0x80000000000);
    /// `IDENTIFIER`
    pub const IDENTIFIER: Kinds = Kinds(0x100000000000);
    /// `NUMBER`
    pub const NUMBER: Kinds = Kinds(0x200000000000);
    /// `STRINGLIT`
    pub const STRINGLIT: Kinds = Kinds(0x400000000000);
    /// `PRINCIPAL_SLOT`
    pub const PRINCIPAL_SLOT: Kinds = Kinds(0x800000000000);
    /// `RESOURCE_SLOT`
    pub const RESOURCE_SLOT: Kinds = Kinds(0x1000000000000);
    /// `OTHER_SLOT`
    pub const OTHER_SLOT: Kinds = Kinds(0x2000000000000);
    /// Every word.
    pub const WORDS: Kinds = Kinds(0x1ffff8000000);
    /// The words that may begin a name in an expression.
    pub const NAMES: Kinds = Kinds(0x1fffc0000000);
    /// What begins a literal.
    pub const LITERALS: Kinds = Kinds(0x600018000000);
    /// Every slot.
    pub const SLOTS: Kinds = Kinds(0x3800000000000);
    /// The operators of comparison.
    pub const REL_OPERATORS: Kinds = Kinds(0x1040fc000);
    /// The operators of sums.
    pub const ADD_OPERATORS: Kinds = Kinds(0x300000);
    /// The operators of products.
    pub const MULT_OPERATORS: Kinds = Kinds(0x3400000);
    /// What begins an access.
    pub const ACCESSES: Kinds = Kinds(0x405);

    /// These kinds and those.
    pub fn with(self, others: Kinds) -> Kinds
        ensures { (kind : Kinds) → meets result kind ≡ (meets self kind || meets others kind) }
    {
        Kinds(self.0 | others.0)
    }

    /// Whether one of those kinds is among these.
    pub fn meets(self, others: Kinds) -> bool
        ensures { result ≡ meets self others }
    {
        self.0 & others.0 != 0
    }

    /// The names of these kinds, in the order of `KIND_NAMES`; refused for memory alone.
    pub fn names(self, alloc: Global) -> Result<Vec<String>, AllocError>
        ensures { IfOk result (λ names. map string_bytes names.items ≡ names_of self) }
    {
        self.names_in(alloc, &KIND_NAMES)
    }

    /// The names that the table has for these kinds, in its order; refused for memory alone.
    fn names_in(self, alloc: Global, table: &[(Kinds, &str)]) -> Result<Vec<String>, AllocError>
        ensures { IfOk result (λ names. map string_bytes names.items ≡ names_in self (named table.now)) }
    {
        let mut names = Vec::new(alloc);
        'kinds: for (kind, name) in table {
            if self.meets(*kind) {
                names.push(String::from_str(alloc, name)?)?;
            }
        }
        Ok(names)
    }
}

/// Each kind with its name: a mark between quotes, a word or a class of tokens in capitals.
pub const KIND_NAMES: [(Kinds, &str); 50] = [
    (Kinds::LEFT_PAREN, "\"(\""),
    (Kinds::RIGHT_PAREN, "\")\""),
    (Kinds::LEFT_BRACKET, "\"[\""),
    (Kinds::RIGHT_BRACKET, "\"]\""),
    (Kinds::LEFT_BRACE, "\"{\""),
    (Kinds::RIGHT_BRACE, "\"}\""),
    (Kinds::COMMA, "\",\""),
    (Kinds::SEMICOLON, "\";\""),
    (Kinds::COLON, "\":\""),
    (Kinds::COLON_COLON, "\"::\""),
    (Kinds::DOT, "\".\""),
    (Kinds::AT, "\"@\""),
    (Kinds::AND_AND, "\"&&\""),
    (Kinds::OR_OR, "\"||\""),
    (Kinds::EQUAL_EQUAL, "\"==\""),
    (Kinds::NOT_EQUAL, "\"!=\""),
    (Kinds::LESS, "\"<\""),
    (Kinds::LESS_EQUAL, "\"<=\""),
    (Kinds::GREATER, "\">\""),
    (Kinds::GREATER_EQUAL, "\">=\""),
    (Kinds::PLUS, "\"+\""),
    (Kinds::MINUS, "\"-\""),
    (Kinds::STAR, "\"*\""),
    (Kinds::BANG, "\"!\""),
    (Kinds::SLASH, "\"/\""),
    (Kinds::PERCENT, "\"%\""),
    (Kinds::EQUAL, "\"=\""),
    (Kinds::TRUE, "TRUE"),
    (Kinds::FALSE, "FALSE"),
    (Kinds::IF, "IF"),
    (Kinds::THEN, "THEN"),
    (Kinds::ELSE, "ELSE"),
    (Kinds::IN, "IN"),
    (Kinds::LIKE, "LIKE"),
    (Kinds::HAS, "HAS"),
    (Kinds::IS, "IS"),
    (Kinds::PERMIT, "PERMIT"),
    (Kinds::FORBID, "FORBID"),
    (Kinds::WHEN, "WHEN"),
    (Kinds::UNLESS, "UNLESS"),
    (Kinds::PRINCIPAL, "PRINCIPAL"),
    (Kinds::ACTION, "ACTION"),
    (Kinds::RESOURCE, "RESOURCE"),
    (Kinds::CONTEXT, "CONTEXT"),
    (Kinds::IDENTIFIER, "IDENTIFIER"),
    (Kinds::NUMBER, "NUMBER"),
    (Kinds::STRINGLIT, "STRINGLIT"),
    (Kinds::PRINCIPAL_SLOT, "PRINCIPAL_SLOT"),
    (Kinds::RESOURCE_SLOT, "RESOURCE_SLOT"),
    (Kinds::OTHER_SLOT, "OTHER_SLOT"),
];
