// The source type of a rule.
#![tactic(auto)]

ghost use Rattle.std.specs.Prelude.{◌≡◌};
ghost use Rattle.table_source.specs.SourceType.{is_module, is_typescript};

// a module
pub const MODULE: u32 = 1;
// a TypeScript module without ambient code; the last one
pub const TYPESCRIPT: u32 = 2;

pub fn is_typescript(source_type: u32) -> bool
    ensures { result ≡ is_typescript source_type }
{
    source_type == TYPESCRIPT
}

pub fn is_module(source_type: u32) -> bool
    ensures { result ≡ is_module source_type }
{
    source_type == MODULE || source_type == TYPESCRIPT
}
