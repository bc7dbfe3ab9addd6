// check_super: the search through the scopes, for the finding and for refusal 6.
#![tactic(auto)]

ghost use Rattle.std.specs.Prelude.{◌≡◌, ◌<◌};
ghost use Rattle.table_records.specs.Table.{count, count_scopes};
ghost use Rattle.table_records.specs.Facts.{Scoped};
ghost use Rattle.table_children.specs.Children.{below};
ghost use Rattle.check_supers.specs.Super.{reach_of, fails_at, by_reach, check_super};
ghost use Rattle.check_super_search.specs.Search.{underived_in, around_of};

use check_diagnostics::{Finding, codes, contexts, error_at};
use check_supers::{ElementPart, Reach, Step};
use table_records::nodes::Nodes;
use table_records::scopes::Scopes;
use table_records::{NodeId, ScopeId, kinds};

// The scopes around s.
fn around(scopes: &Scopes, s: ScopeId) -> Option<ScopeId>
    requires s_bound { s.0 < count_scopes scopes.now }
    ensures { result ≡ around_of scopes.now s.0 }
{
    if s.0 == 0 {
        return None;
    }
    Some(table_ancestry::scope_up(scopes, s))
}

// What is found of the Super n, scope by scope outward. It is illegal too where it is in no function and no class:
// > ModuleBody : ModuleItemList
// > * It is a Syntax Error if ModuleItemList Contains super.
// > ScriptBody : StatementList
// > * It is a Syntax Error if StatementList Contains super
pub fn reach(nodes: &Nodes, scopes: &Scopes, n: NodeId) -> Reach
    requires scoped { Scoped nodes.now scopes.now }
    requires n_bound { n.0 < count nodes.now }
    ensures value { result ≡ reach_of nodes.now scopes.now n.0 }
    ensures underived_in { underived_in nodes.now result }
{
    let call = check_supers::is_call(nodes, n);
    let mut class = check_supers::class_around(nodes, n);
    let mut start = n;
    let mut left = Some(table_records::scope(nodes, n));
    'scopes: loop {
        let Some(s) = left else {
            break 'scopes Reach::Illegal;
        };
        left = around(scopes, s);
        let mut x = start;
        start = table_records::scope_node(scopes, s);
        if !check_supers::is_class_scope(nodes, class, s) {
            if let Step::Stop(r) = check_supers::scope_step(nodes, scopes, n, call, class, s) {
                break 'scopes r;
            }
            continue 'scopes;
        }
        // The class's scope: which part of a class element of it is the `super` in?
        loop {
            if x.0 == 0 {
                break 'scopes Reach::Fails;
            }
            let a = table_ancestry::up(nodes, x);
            match check_supers::part_at(nodes, a, x) {
                // `super.foo` is legal in a value, `super()` is not.
                Some(ElementPart::Value) => break 'scopes check_supers::if_call(call),
                // In a computed key or decorator the class around decides.
                Some(ElementPart::Key) => {
                    class = check_supers::leave_class(nodes, class);
                    continue 'scopes;
                }
                None => x = a,
            }
        }
    }
}

// Whether n is a Super whose search the Rust ends in a failure.
#[tactic(auto, unfolding(check_supers::specs::Super::fails_at))]
pub fn fails_at(nodes: &Nodes, scopes: &Scopes, n: NodeId) -> bool
    requires scoped { Scoped nodes.now scopes.now }
    requires n_bound { n.0 < count nodes.now }
    ensures { result ≡ fails_at nodes.now scopes.now n.0 }
{
    table_records::kind(nodes, n) == kinds::SUPER && matches!(reach(nodes, scopes, n), Reach::Fails)
}

// The finding of an illegal `super`: the call, or the Super itself.
fn illegal(nodes: &Nodes, n: NodeId) -> Option<Finding>
    requires n_bound { n.0 < count nodes.now }
    ensures { result ≡ by_reach nodes.now n.0 Reach.Illegal }
{
    if check_supers::is_call(nodes, n) {
        let call = table_records::parent(nodes, n);
        return error_at(nodes, codes::UNEXPECTED_SUPER_CALL, n, call, contexts::NONE);
    }
    error_at(
        nodes,
        codes::UNEXPECTED_SUPER_REFERENCE,
        n,
        n,
        contexts::NONE,
    )
}

// The finding that a search gives.
fn by_reach(nodes: &Nodes, n: NodeId, r: Reach) -> Option<Finding>
    requires n_bound { n.0 < count nodes.now }
    requires underived_in { underived_in nodes.now r }
    ensures { result ≡ by_reach nodes.now n.0 r }
{
    match r {
        Reach::Legal | Reach::Fails => None,
        Reach::Illegal => illegal(nodes, n),
        Reach::Underived(c) => check_diagnostics::error_between(
            nodes,
            codes::SUPER_WITHOUT_DERIVED_CLASS,
            n,
            n,
            c,
        ),
    }
}

#[tactic(auto, unfolding(check_supers::specs::Super::check_super))]
pub fn check_super(nodes: &Nodes, scopes: &Scopes, n: NodeId) -> Option<Finding>
    requires scoped { Scoped nodes.now scopes.now }
    requires n_bound { n.0 < count nodes.now }
    ensures { result ≡ check_super nodes.now scopes.now n.0 }
{
    by_reach(nodes, n, reach(nodes, scopes, n))
}
