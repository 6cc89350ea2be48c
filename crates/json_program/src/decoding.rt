//! Laws of checks, and of lists that are checked element by element. The functions do nothing when the program runs.

ghost use Rattle.std.specs.Prelude.{◌≡◌, ◌+◌, ℕ, List, [], ◌∷◌, Ok, Err, Result, IfOk, IsErrAnd, drop};
ghost use Rattle.serde_json.specs.declared.value.Value.{Value};
ghost use Rattle.json_program.specs.Decoded.{Answer, Decodes, Decoding, EndedBy, FailAlike, Viewed, result_map, seen, with_field};
ghost use Rattle.json_program.specs.Elements.{IsElement, IsNext, ListCheck, SoFar, completed, joined, with_next};
ghost use Rattle.json_program.specs.Faults.{Checked, ◌⊛◌, in_unit, keep_fault, unit_answer};
ghost use Rattle.json_program.specs.declared.fault.FaultName.{FaultName};
ghost use Rattle.json_program.specs.declared.fault.DecodeError.{DecodeError};

/// A value or fault that `keep_fault` gave, and a fault that `?` returns early, are those that are
/// decoded.
pub fn passed_on_as_decoded<A, B>()
    ensures kept { (d : Decoding A B FaultName)
        → IfOk (keep_fault d.answer) (λ kept. result_map d.view kept ≡ d.decoded) }
    ensures fault { (seen : A → B) (answer : Answer A) (name : FaultName)
        → EndedBy answer name → Decodes seen answer (Err name) }
    ensures checked { (answer : Checked A) (name : FaultName)
        → IsErrAnd answer (λ given. given ≡ name) → answer ≡ Err name }
{}

/// The error of one unit is returned as it is, and a unit's value is what is decoded.
pub fn units_as_decoded<A, B, F>()
    ensures error { (d : Decoding A B F) (answer : Result A (DecodeError F))
        → FailAlike answer d.answer → Decodes d.view answer d.decoded }
    ensures unit { (d : Decoding A B FaultName) (n : ℕ)
        → Decodes d.view (unit_answer n d.answer) (in_unit n d.decoded) }
    ensures good { (d : Decoding A B FaultName) (n : ℕ)
        → IfOk (unit_answer n d.answer) (λ value. d.decoded ≡ Ok (d.view value)) }
{}

/// The value that fields make, one field after the other.
pub fn fields_by_parts<A, B, C, X>()
    ensures first { (f : A → B) (seen : C → A) (x : Checked C)
        → result_map (λ v. f (seen v)) x ≡ Ok f ⊛ result_map seen x }
    ensures next { (fields : Viewed X (A → B)) (last : Viewed C A)
        → seen (with_field fields last) ≡ seen fields ⊛ seen last }
    ensures plain { (x : Checked A) → result_map (λ v. v) x ≡ x }
{}

/// The elements of a list, by their indexes: with one more element, what was checked so far and the
/// elements that are left still give the check of the whole list.
pub fn elements_by_index<A>()
    ensures element { (vs : List Value) (i : ℕ) (v : Value)
        → IsElement vs i v → drop i vs ≡ v ∷ drop (i + 1) vs }
    ensures next { (l : ListCheck A) (s : SoFar A) (v : Value)
        → IsNext l s v → completed l s ≡ completed l (with_next l s v) }
    ensures end { (checked : Checked (List A)) → joined checked (Ok []) ≡ checked }
{}
