// A stack is shared between threads, and what runs it goes from one to another: a stack is Send and Sync
// where its endpoints are. That is proved here, where these calls are.
use super::{BuildFault, Line, Stack, StackRunner, Steps};

fn are_send<E: Send + Sync>() {
    is_send::<Line<E>>();
    is_send::<Steps<E>>();
    is_send::<BuildFault>();
    is_send::<Stack<E>>();
    is_sync::<Stack<E>>();
    is_send::<StackRunner<E>>()
}

fn is_send<T: Send>() {}

fn is_sync<T: Sync>() {}
