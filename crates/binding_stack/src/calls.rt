ghost use Rattle.binding_stack.specs.Calls.{GetIsMapAndStore};

/// Whatever is called, a symbol has the word that its place holds in the map and the store.
#[tactic(auto, using(crate::proofs::Together::same_words))]
pub fn get_is_map_and_store()
    ensures { GetIsMapAndStore }
{}
