//! What stays true of a log's lists.
ghost use Rattle.order_query.specs.Logs.{OrdersStay};

/// Later inserts keep the order of the items that were there, in both lists.
pub fn orders_stay()
    ensures { OrdersStay }
{}
