//! What terminals and cards share: the instruction of GET RESPONSE, and the limit of a response.

/// INS of GET RESPONSE (ISO/IEC 7816-4, GET RESPONSE).
pub const GET_RESPONSE: u8 = 0xC0;

/// The most data bytes of a response, all parts together, that an exchange gathers (profile). It
/// limits no table: a value with its tag and length is far shorter, so no response of the card of
/// data objects exceeds it (law `an_exchange_brings_no_more_than_is_gathered`).
pub const RESPONSE_LIMIT: usize = 16_384;
