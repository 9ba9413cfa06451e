use wire::Call;

// What happens at a house.
#[derive(Clone, Copy)]
pub enum Event<'a> {
    // a call of its programs, or of its collector
    Call(Call),
    // these bytes come, whatever they are
    Came(&'a [u8]),
}
