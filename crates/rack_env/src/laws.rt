// Laws over the definitions. A function without a result does nothing: its contract is the law.
ghost use Rattle.std.specs.Prelude.{◌≡◌, ◌⊎◌, ℕ, List, None, Some, false, codes};
ghost use Rattle.rack_text.specs.Case.{same_ignoring_case};
ghost use Rattle.rack_types.specs.Env.{get_pair};
ghost use Rattle.rack_types.specs.Fields.{values_of};
ghost use Rattle.rack_types.specs.Request.{Parts};
ghost use Rattle.rack_types.specs.declared.peer.Local.{Local};
ghost use Rattle.rack_env.specs.Environment.{env_pairs};
ghost use Rattle.rack_env.specs.Fields.{http_name, is_left_out, joined};

/// What an environment has of those fields of a request that it names `HTTP_`, whatever their order and the
/// case of their letters: by the name that a field is given the values of all fields with that name, joined
/// in order, and none where there is no such field; by Host's name the target's authority, where there is
/// one. Which fields are left out, how a name is given and how values are joined is in the definitions.
pub fn fields_are_found()
    ensures value { (r : Parts) (peer : List ℕ) (local : Local) (name : List ℕ) → is_left_out name ≡ false
        → (r.authority ≡ None) ⊎ (same_ignoring_case name (codes "host") ≡ false)
        → get_pair (http_name name) (env_pairs r peer local) ≡ joined (values_of name r.fields) }
    ensures authority { (r : Parts) (peer : List ℕ) (local : Local) (authority : List ℕ) → r.authority ≡ Some authority
        → get_pair (codes "HTTP_HOST") (env_pairs r peer local) ≡ Some authority }
{}
