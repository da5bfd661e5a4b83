// What the parts of a query are typed by.
use mon_schema::Schemas;
use std::alloc::Global;

/// What every part is typed by: the schemas that are held, and the seconds from one time to the next.
#[derive(Clone, Copy)]
pub struct TypingSetting<'a> {
    pub alloc: Global,
    pub schemas: &'a Schemas,
    pub every: i64,
}
