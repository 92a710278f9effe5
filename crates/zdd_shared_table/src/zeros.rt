//! The zeros that a store begins with.
ghost use Rattle.std.specs.Prelude.{◌≡◌, ◌≤◌, [], replicate, IfOk};

use std::alloc::AllocError;

// How many zeros are part of the program. They take no memory of a run, and where a compiler sees that a list is made
// of them it fills it without reading them.
const OWN_ZEROS: usize = 1_048_576;

static ZEROS: [u64; OWN_ZEROS] = [0; OWN_ZEROS];

/// So many zeros: those of the program where they are enough, and else as many on the heap.
pub(crate) fn zeros<'a>(heap: &'a mut Vec<u64>, count: usize) -> Result<&'a [u64], AllocError>
    requires { heap.old.items ≡ [] }
    ensures { IfOk result (λ words. words.now ≡ replicate count 0) }
{
    if count <= OWN_ZEROS {
        return Ok(own_zeros(count));
    }
    heap.resize(count, 0)?;
    Ok(heap.as_slice())
}

// So many zeros of the program.
fn own_zeros(count: usize) -> &'static [u64]
    requires { count ≤ 1_048_576 }
    ensures { result.now ≡ replicate count 0 }
{
    &ZEROS[..count]
}
