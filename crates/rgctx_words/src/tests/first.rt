// A small rule: the first word is always there, and each held word names it.
ghost use Rattle.std.specs.Prelude.{◌≡◌, ◌≢◌, ℕ, slice_index};
ghost use Rattle.std.proofs.Common.{sym, ap, ◌∙◌, get_or-set_other};

use crate::WordsRule;

pub struct First;

impl WordsRule for First {
    type Cat = u64;

    ghost fits = { λ cat words. slice_index words 0 ≢ 0 };

    ghost allows = { λ cat held i word. Unit {0} };

    ghost always = { λ i. i ≡ 0 };

    ghost names = { λ cat held i. (j : ℕ) × (held j ≢ 0) × (i ≡ 0) };

    ghost claim_fits = { λ cat words held i word count fits within low nonzero small was may z. fits (sym (get_or-set_other words i 0 word 0 (λ e. fits (ap (slice_index words) e ∙ was))) ∙ z) };

    ghost always_there = { λ cat words i fits is z. fits (ap (slice_index words) (sym is) ∙ z) };

    ghost named_there = { λ cat words held i count fits within named z. fits (ap (slice_index words) (sym named.2) ∙ z) };
}
