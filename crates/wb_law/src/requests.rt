//! Requests, and the accesses that are given at them.
ghost use Rattle.wb_law.specs.Requests.{RequestsAreOne, GivenChipsAreOne, LastAccessIsGivenAtARequest, LastReplyIsGivenAtARequest, StatusReadsMoveNoRequest, FirstRequestsAreFresh, FreshRequestsAreFirst, RequestsAreOnTheWay, RequestsAreAsked};

use crate::facts::port_facts;

/// A chip comes to one request after some accesses.
pub fn requests_are_one()
    ensures { RequestsAreOne }
{}

/// A chip is one after some accesses were given.
pub fn given_chips_are_one()
    ensures { GivenChipsAreOne }
{}

/// The last access is given at the first request after those before it.
pub fn last_access_is_given_at_a_request()
    ensures { LastAccessIsGivenAtARequest }
{}

/// The replies with one access more are those before it and the last one's, at its request.
pub fn last_reply_is_given_at_a_request()
    ensures { LastReplyIsGivenAtARequest }
{}

/// Leaving status reads out changes no request.
pub fn status_reads_move_no_request()
    ensures { StatusReadsMoveNoRequest }
{}

/// A first request is asked, and its count is 0.
pub fn first_requests_are_fresh()
    ensures { FirstRequestsAreFresh }
{
    port_facts();
}

/// Where a held chip strides on, a request with count 0 is the first one after the accesses so far.
pub fn fresh_requests_are_first()
    ensures { FreshRequestsAreFirst }
{
    port_facts();
}

/// Where a chip comes to a request, it comes there too where it is held.
pub fn requests_are_on_the_way()
    ensures { RequestsAreOnTheWay }
{}

/// A request that stands is asked, at every moment of every schedule.
pub fn requests_are_asked()
    ensures { RequestsAreAsked }
{
    port_facts();
}
