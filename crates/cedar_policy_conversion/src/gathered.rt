// Policies that are gathered one after the other, each under its number.
ghost use Rattle.std.specs.Prelude.{◌≡◌, ◌⊎◌, List, [], ◌∷◌, ◌++◌, IfOk, IfErr, OnOk, None, Option, Some, length};
ghost use Rattle.std.specs.Option.{option_map};
ghost use Rattle.cedar_grammar.specs.Converting.{policy_syntax};
ghost use Rattle.cedar_grammar.specs.Loose as loose;
ghost use Rattle.cedar_grammar.specs.Names.{Names};
ghost use Rattle.cedar_cst.specs.View.{shown_policy};
ghost use Rattle.cedar_grammar.specs.Syntax.{numbered};
ghost use Rattle.cedar_faults.specs.Converts.{and_then, Finds};
ghost use Rattle.cedar_policy_set.specs.Entries.{Entries, bound_at};
ghost use Rattle.cedar_policy_set.specs.Refused.{IsOccupied, taken};
ghost use Rattle.cedar_policy_set.specs.Texts.{text_entry};
ghost use Rattle.cedar_faults.specs.Telling.{Told, TellsOnly};
ghost use Rattle.cedar_policy_conversion.specs.Kinds.{entry_made, id_made};
ghost use Rattle.cedar_policy_conversion.specs.Free.{LeavesFree};
ghost use Rattle.cedar_policy_conversion.specs.Shows.{policy_shows};
ghost use Rattle.std.proofs.Props.{props};

use crate::PolicyError;
use crate::numbers::numbered_id;
use crate::policies::to_sharing_policy_or_template;
use crate::sharing::SharedParts;
use cedar_cst::cst;
use cedar_cst::node::Node;
use cedar_faults::{ConversionError, ExtStyles, flatten_tuple_2};
use cedar_policies::static_policies::StaticPolicy;
use cedar_policies::templates::Template;
use cedar_policy_set::errors::PolicySetError;
use cedar_policy_set::sets::PolicySet;
use either::Either;
use std::alloc::Global;

/// The policies of a text that were gathered so far, in its order: the set of them, or the faults of all.
#[derive(Drop)]
pub struct GatheredPolicies {
    set: Result<PolicySet, PolicyError>,
    common: SharedParts,
    ghost free: { IfOk set LeavesFree } by { Prim.hlevel props },
}

impl GatheredPolicies {
    ghost use Rattle.cedar_policy_conversion.specs.Gathered.{AreGathered, gathered_set};

    /// None yet; takes no memory.
    pub fn new(alloc: Global) -> GatheredPolicies
        ensures { (names : Names) → AreGathered names [] result }
    {
        GatheredPolicies {
            set: Ok(PolicySet::new(alloc)),
            common: SharedParts::new(alloc),
        }
    }

    /// With the policy of one more node, under the id of its place: `policy0`, `policy1` and so on.
    pub fn with(
        self,
        alloc: Global,
        node: &Node<Option<cst::Policy>>,
        styles: &ExtStyles,
    ) -> GatheredPolicies
        ensures { (before : List loose.Policy) → AreGathered styles.now before self → AreGathered styles.now (before ++ shown_policy node.now ∷ []) result }
    {
        let GatheredPolicies {
            set: earlier,
            mut common,
        } = self;
        let set = with_node(alloc, earlier, node, styles, &mut common);
        GatheredPolicies { set, common }
    }

    /// The set of all, or their faults in order.
    pub fn into_set(self) -> Result<PolicySet, PolicyError>
        ensures { result ≡ gathered_set self }
    {
        self.set
    }
}

// Adds a static policy or a template to a set.
fn add(
    alloc: Global,
    set: &mut PolicySet,
    policy: Either<StaticPolicy, Template>,
) -> Result<(), PolicySetError>
    ensures added { OnOk result (set.new ≡ set.old ++ (id_made policy, entry_made policy) ∷ []) }
    ensures refused { IfErr result (IsOccupied (taken set.old (id_made policy))) }
{
    match policy {
        Either::Left(policy) => set.add_static(alloc, policy),
        Either::Right(template) => set.add_template(alloc, template),
    }
}

// The set with a static policy or a template of an id that isn't bound there; refused for memory alone.
fn with_policy(
    alloc: Global,
    mut set: PolicySet,
    policy: Either<StaticPolicy, Template>,
) -> Result<PolicySet, PolicyError>
    requires { bound_at set (id_made policy) ≡ None }
    ensures set { Finds (λ set. set) result (Some (set ++ (id_made policy, entry_made policy) ∷ [])) }
    ensures told { IfErr result (λ error. TellsOnly error (λ kind. ⊥)) }
{
    match add(alloc, &mut set, policy) {
        Ok(()) => Ok(set),
        Err(PolicySetError::Occupied { .. }) => unreachable!(),
        Err(PolicySetError::Memory(_)) => Err(ConversionError::Memory),
    }
}

// The number of the next policy; any, where there is no set that it would go into.
fn next_number(set: &Result<PolicySet, PolicyError>) -> usize
    ensures { IfOk set.now (λ es. result ≡ length es) }
{
    match set {
        Ok(set) => set.len(),
        Err(_) => 0,
    }
}

// The set with the policy of a node under its number, which isn't bound there; or the faults of all.
fn with_node(
    alloc: Global,
    earlier: Result<PolicySet, PolicyError>,
    node: &Node<Option<cst::Policy>>,
    styles: &ExtStyles,
    common: &mut SharedParts,
) -> Result<PolicySet, PolicyError>
    requires { IfOk earlier LeavesFree }
    ensures set { (before : Option Entries) → Finds (λ set. set) earlier before →
        Finds (λ set. set) result (and_then before (λ es.
        and_then (option_map text_entry (policy_syntax styles.now (shown_policy node.now))) (λ e. Some (es ++ (numbered (length es), e) ∷ [])))) }
    ensures free { IfOk result LeavesFree }
    ensures told { IfErr result (λ error. TellsOnly error (λ kind. Told earlier kind ⊎ policy_shows styles.now (shown_policy node.now) kind)) }
{
    let id = numbered_id(alloc, next_number(&earlier))?;
    let next = to_sharing_policy_or_template(alloc, node, id, styles, common);
    let (set, policy) = flatten_tuple_2(earlier, next)?;
    with_policy(alloc, set, policy)
}
