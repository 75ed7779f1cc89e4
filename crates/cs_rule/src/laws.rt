ghost use Rattle.std.specs.Prelude.{pos, true, false, IsSomeAnd, codes};
ghost use Rattle.jiff_tz.specs.PosixReader.{read_whole};
ghost use Rattle.cs_zone.specs.Zone.{no_zone};
ghost use Rattle.cs_rule.specs.Rule.{IsClock};

/// Lemma. What the rules of Berlin, Sydney and UTC say. In Sydney the plan's clock shows summer time.
#[tactic(auto, unfolding(jiff_tz::proofs::OnLiterals::jiff_tz_on_literals))]
pub fn rules()
    ensures berlin { IsSomeAnd (read_whole (codes "CET-1CEST,M3.5.0,M10.5.0/3"))
        (λ rule. IsClock rule (record {
          offset = pos 60;
          zone = record {
            ahead = true;
            saving = 60;
            leaves = record { earliest = 24; weekday = 0; minute = 120 };
            returns = record { earliest = 238; weekday = 0; minute = 180 };
          };
          plan_name = codes "CET";
          other_name = codes "CEST";
        })) }
    ensures sydney { IsSomeAnd (read_whole (codes "AEST-10AEDT,M10.1.0,M4.1.0/3"))
        (λ rule. IsClock rule (record {
          offset = pos 660;
          zone = record {
            ahead = false;
            saving = 60;
            leaves = record { earliest = 31; weekday = 0; minute = 180 };
            returns = record { earliest = 214; weekday = 0; minute = 120 };
          };
          plan_name = codes "AEDT";
          other_name = codes "AEST";
        })) }
    ensures utc { IsSomeAnd (read_whole (codes "UTC0"))
        (λ rule. IsClock rule (record {
          offset = pos 0;
          zone = no_zone;
          plan_name = codes "UTC";
          other_name = codes "UTC";
        })) }
{}
