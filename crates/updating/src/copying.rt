// Components and settings copied: with more behind them, or without some of them.
ghost use Rattle.std.specs.Prelude.{◌≡◌, [], ◌∷◌, ◌++◌, suc, ◌+◌, ◌*◌, ◌≤◌, ◌<◌, length};
ghost use Rattle.std.proofs.Math.Seq.{paste};
ghost use Rattle.updating.specs.Updated.{without};

// Some components, and more behind them.
pub(crate) fn append_components(vectors: &[i32], vector: &[i32], out: &mut [i32])
    requires { length out.old ≡ length vectors.now + length vector.now }
    ensures { out.new ≡ vectors.now ++ vector.now }
{
    join(vectors, vector, out);
}

// Rows of d components without row i.
pub(crate) fn cut_components(vectors: &[i32], d: usize, i: usize, out: &mut [i32])
    requires { (suc i * d ≤ length vectors.now) × (length out.old + d ≡ length vectors.now) }
    ensures { out.new ≡ without d i vectors.now }
{
    let start = i * d;
    let end = start + d;
    join(&vectors[..start], &vectors[end..], out);
}

// Some settings, and one more behind them.
pub(crate) fn append_setting(settings: &[u32], setting: u32, out: &mut [u32])
    requires { length out.old ≡ suc (length settings.now) }
    ensures { out.new ≡ settings.now ++ (setting ∷ []) }
{
    join(settings, &[setting], out);
}

// Settings without number i.
pub(crate) fn cut_settings(settings: &[u32], i: usize, out: &mut [u32])
    requires { (i < length settings.now) × (suc (length out.old) ≡ length settings.now) }
    ensures { out.new ≡ without 1 i settings.now }
{
    let end = i + 1;
    join(&settings[..i], &settings[end..], out);
}

// Two lists copied, one behind the other.
fn join<T: Copy>(front: &[T], back: &[T], out: &mut [T])
    requires { length out.old ≡ length front.now + length back.now }
    ensures { out.new ≡ front.now ++ back.now }
{
    put(front, 0, out);
    put(back, front.len(), out);
}

// A list copied to a place.
fn put<T: Copy>(from: &[T], at: usize, out: &mut [T])
    requires { at + length from.now ≤ length out.old }
    ensures { out.new ≡ paste out.old at from.now (length from.now) }
{
    for (i, value) in from.iter().enumerate() {
        out[at + i] = *value;
    }
}
