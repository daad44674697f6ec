// Laws over what heads and values are.
ghost use Rattle.std.specs.Prelude.{◌≡◌, ℕ, List, Some, None};
ghost use Rattle.httparse.specs.Grammar.{RequestHead};
ghost use Rattle.range_text.specs.Ranges.{Range, SpellsRange, answer_to};
ghost use Rattle.range_text.specs.declared.answers.RangeAnswer.TheVariants.{Whole};
ghost use Rattle.request_head.specs.Requests.{IsRequest, parts_of};
ghost use Rattle.range_reply.specs.Replies.{range_of_value, request_of};

/// The request that is answered is the one that the bytes are by the grammar, and the range that it asks for the one that
/// its field spells. A law, which does nothing when it is called.
pub fn heads_are_read_by_the_grammar()
    ensures request { (bytes : List ℕ) (tree : RequestHead) → IsRequest bytes tree → request_of bytes ≡ Some (parts_of tree) }
    ensures no_request { (bytes : List ℕ) → ((tree : RequestHead) → ¬ (IsRequest bytes tree)) → request_of bytes ≡ None }
    ensures range { (size : ℕ) (value : List ℕ) (range : Range) → SpellsRange value range → range_of_value size value ≡ answer_to size range }
    ensures no_range { (size : ℕ) (value : List ℕ) → ((range : Range) → ¬ (SpellsRange value range)) → range_of_value size value ≡ Whole }
{}
