// Whether a rule is met, a plan is smaller than another, and pins are obeyed, word for word as 01 and 02 (Item 9) say it: what the oracle's answers
// rest on.
#![tactic(auto)]

ghost use Rattle.std.specs.Prelude.{◌≡◌};
ghost use Rattle.meaning.specs.Meaning.{is_met, is_smaller, obeys_pins};

// Whether a subset meets a rule of the reduct by an interpretation; with the two equal, whether the interpretation meets the rule.
pub fn is_met(head: u64, positive: u64, negative: u64, interpretation: u64, subset: u64) -> bool
    ensures { result ≡ is_met head positive negative interpretation subset }
{
    if negative & interpretation != 0 {
        return true;
    }
    if positive & subset != positive {
        return true;
    }
    head & subset != 0
}

// Whether a set is a proper subset of an interpretation that agrees with it on every external atom (02: granted copy).
pub fn is_smaller(external: u64, interpretation: u64, subset: u64) -> bool
    ensures { result ≡ is_smaller external interpretation subset }
{
    if subset & interpretation != subset {
        return false;
    }
    if interpretation & subset == interpretation {
        return false;
    }
    external & subset == external & interpretation
}

// Whether a set is one of the given atoms alone and obeys the pins on them.
pub fn obeys(set: u64, atoms: u64, assumed_true: u64, assumed_false: u64) -> bool
    ensures { result ≡ obeys_pins set atoms assumed_true assumed_false }
{
    if set & atoms != set {
        return false;
    }
    let forced = assumed_true & atoms;
    if forced & set != forced {
        return false;
    }
    assumed_false & set == 0
}
