// The marks of the kinds that are one distance.
ghost use Rattle.std.specs.Prelude.{◌≡◌, ℕ, List, length};
ghost use Rattle.format.specs.Places.{Bytes};
ghost use Rattle.format.specs.Sheets.{pointer_mark, far_array_mark};
ghost use Rattle.std.proofs.Common.{refl, lit<};

pub trait Mark {
    // By its letters, as `scalars` has that of a truth.
    const MARK: [u8; 2];

    ghost MARK: { List ℕ };

    ghost bytes: { Bytes MARK };

    ghost two: { length MARK ≡ 2 };
}

pub struct PointerMark;

pub struct FarArrayMark;

impl Mark for PointerMark {
    const MARK: [u8; 2] = [b'R', b'P'];

    ghost MARK = { pointer_mark };

    ghost bytes = { (lit< tt, (lit< tt, tt)) };

    ghost two = { refl };
}

impl Mark for FarArrayMark {
    const MARK: [u8; 2] = [b'A', b'R'];

    ghost MARK = { far_array_mark };

    ghost bytes = { (lit< tt, (lit< tt, tt)) };

    ghost two = { refl };
}
