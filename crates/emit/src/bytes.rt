// Bytes of instructions, put behind the code as far as there is room.
ghost use Rattle.std.specs.Prelude.{◌≡◌, ◌+◌, ◌≤◌, ◌∷◌, ◌++◌, length, take, drop};
ghost use Rattle.std.proofs.lemmas.List.Edits.{sets};
ghost use Rattle.definition.specs.Emit.{le16};
ghost use Rattle.store.specs.Store.{at, push_all};

// Low byte first.
pub fn push_u16(code: &mut [u8], used: usize, x: u16) -> usize
    ensures { at code.new result ≡ push_all (at code.old used) (le16 x) }
{
    let [low, high] = x.to_le_bytes();
    let one = store::push(code, used, low);
    store::push(code, one, high)
}

// A CMP_BR whose branch operand is 0.
pub fn push_cmp_br(
    code: &mut [u8],
    used: usize,
    opcode: u8,
    comparison: u8,
    v: u16,
    index: u16,
) -> usize
    ensures { at code.new result ≡ push_all (at code.old used) (opcode ∷ (comparison ∷ le16 v ++ le16 index) ++ le16 0) }
{
    let one = store::push(code, used, opcode);
    let two = store::push(code, one, comparison);
    let four = push_u16(code, two, v);
    let six = push_u16(code, four, index);
    push_u16(code, six, 0)
}

// A byte put at a place, and the three bytes from there on moved up by one.
pub fn insert_before_three(code: &mut [u8], place: usize, x: u8)
    requires { place + 4 ≤ length code.old }
    ensures { code.new ≡ sets code.old place (x ∷ take 3 (drop place code.old)) }
{
    code.copy_within(place..place + 3, place + 1);
    code[place] = x;
}
