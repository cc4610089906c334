// The two streets that a row is routed between.
ghost use Rattle.std.specs.Prelude.{◌≡◌, false, MatchOption};
ghost use Rattle.rules.specs.Sheet.{takes};

use rules::Streets;

// The streets of Ku and Kl tracks, if the router takes them; the pair is told as one number Ku × 256 + Kl, of which the exact rules ask a match on ranges.
pub fn streets_of(ku: u8, kl: u8) -> Option<Streets>
    ensures { MatchOption result (takes ku kl ≡ false) (λ s. (s.upper ≡ ku) × (s.lower ≡ kl)) }
{
    let pair = u16::from(ku) * 256 + u16::from(kl);
    match pair {
        0..=3 | 256..=259 | 512..=515 | 768..=771 => Some(Streets {
            upper: ku,
            lower: kl,
        }),
        _ => None,
    }
}
