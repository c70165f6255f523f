// The reason of a closed column: made of the multipliers of its row, and noted.
#![tactic(auto)]

ghost use Rattle.std.specs.Prelude.{◌≡◌, true, [], ◌∷◌, ◌++◌, suc, ◌≤◌, ◌<◌, ◌*◌, pos, nat_abs, length, set};
ghost use Rattle.whole.specs.Limit.{W};
ghost use Rattle.rows.specs.Row.{scaled, all_within};
ghost use Rattle.rows.specs.Table.{rows_of};
ghost use Rattle.steps.specs.Shown.{Divisor};

// c times a row into another.
pub fn scale_into(into: &mut [i64], row: &[i64], c: i64)
    requires { (length into.old ≡ length row.now) × (all_within row.now ≡ true) × (nat_abs c ≤ W) }
    ensures { into.new ≡ scaled c row.now }
{
    for (i, z) in row.iter().enumerate() {
        into[i] = multiples::product(c, *z);
    }
}

// Column k marked closed, with its reason: the multipliers and the divisor d.
pub fn note_reason(marks: &mut [u8], reasons: &mut [i64], reason: &[i64], k: usize, d: u64)
    requires { (k < length marks.old) × (length reasons.old ≡ length marks.old * suc (length reason.now)) × (length marks.old ≤ 32) ×
        (length reason.now ≤ 32) × Divisor d }
    ensures marks { marks.new ≡ set marks.old k 0 }
    ensures reasons { rows_of (suc (length reason.now)) (length marks.old) reasons.new ≡
        set (rows_of (suc (length reason.now)) (length marks.old) reasons.old) k (reason.now ++ pos d ∷ []) }
{
    let m = reason.len();
    marks[k] = 0;
    let start = k * (m + 1);
    let end = start + m;
    copying::copy(&mut reasons[start..end], reason);
    reasons[end] = whole::signed(d);
}
