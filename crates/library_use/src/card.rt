//! Makes a card with one application and one object.

use object_card::{Aid, BuilderFault, CardBuilder, ObjectCard};
use std::alloc::Global;
use t0_core::CardEnd;
use tlv_core::ObjectTag;

/// Makes a card with one application and one object.
pub fn card(alloc: Global, aid: Aid, tag: ObjectTag) -> Result<CardEnd<ObjectCard>, BuilderFault> {
    let mut builder = CardBuilder::new(alloc);
    builder.app(aid)?;
    builder.object(tag, b"JOE")?;
    Ok(CardEnd::new(builder.finish()?))
}
