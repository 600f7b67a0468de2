// What a call is answered.
use sheet::calls::Refusal;

// The number of the new thread or event, and none for any other call; or why the call is refused.
pub type Answer = Result<Option<u8>, Refusal>;
